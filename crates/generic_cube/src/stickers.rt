ghost use Rattle.std.specs.Prelude.{◌≡◌, ◌==◌, position};
ghost use Rattle.generic_cube.specs.Sizes.{letters};
ghost use Rattle.generic_cube.specs.Answers.{answer};
ghost use Rattle.generic_cube.specs.StickerIndex.{sticker_refusal, sticker_index};

use ground::refusals::Refusal;

// The letters of the faces in their order.
pub const LETTERS: [u8; 6] = *b"URFDLB";

// The place of a letter among the six, none for any other byte.
pub fn face_number(face: u8) -> Option<usize>
    ensures { result ≡ position (λ x. x == face) letters }
{
    LETTERS.iter().position(|&letter| letter == face)
}

// The index of the sticker that is number `index` of a face.
#[tactic(auto, using(crate::proofs::StickerLaws::letter_found, crate::proofs::StickerLaws::letter_missing, crate::proofs::CodeLaws::sized_bounds), unfolding(crate::specs::StickerIndex::sticker_refusal, ground::specs::Refusals::lowest, crate::specs::StickerIndex::sticker_index))]
pub fn sticker_index(n: usize, face: u8, index: usize) -> Result<usize, Refusal>
    ensures { result ≡ answer (sticker_refusal n face index) (sticker_index n face index) }
{
    if !crate::is_size(n) {
        return Err(Refusal::Size);
    }
    let Some(place) = face_number(face) else {
        return Err(Refusal::Index);
    };
    if crate::is_outside(1, n * n, index) {
        return Err(Refusal::Index);
    }
    Ok(place * n * n + index - 1)
}
