// Cubes as lists of stickers: facelet_cube/cube.rs. What a list of moves does to one is a definition (specs/Apply.antt), its refusal is here;
// the code that moves letters and ids is in facelet_moves.
#![tactic(auto)]

ghost use Rattle.std.specs.Prelude.{◌≡◌, ◌<◌, ◌/◌, ℕ, List, length, get_or};
ghost use Rattle.generic_cube.specs.Answers.{done};
ghost use Rattle.generic_cube.specs.Inner.{Sized};
ghost use Rattle.generic_cube.specs.Sizes.{stickers, letters};
ghost use Rattle.facelet_cube.specs.Apply.{apply_refusal};
ghost use Rattle.facelet_cube.specs.InnerFacelets.{Pointwise, plain};

use generic_cube::stickers::LETTERS;
use ground::codes::MoveCode;
use ground::refusals::Refusal;

pub mod cube;

// What a cube is stored in: a letter or an id for each sticker.
pub trait Facelet: Copy {
    // What one is as a number, and a list of them as the list of numbers that the definitions speak of.
    ghost number: { Self → ℕ };

    ghost numbers: { List Self → List ℕ };

    // What the solved cube of a size shows at a place.
    ghost shown: { ℕ → ℕ → ℕ };

    // What a cleared work area is filled with: each type's own 0, so that the two bodies are alike.
    fn blank() -> Self
        ensures { number result ≡ 0 };

    fn shown_at(n: usize, j: usize) -> Self
        requires { Sized n × (j < stickers n) }
        ensures { number result ≡ shown n j };

    // Copies a cube. Letters are copied by hand, as `ground` says.
    fn copy(from: &[Self], to: &mut [Self])
        requires { length to.old ≡ length from.now }
        ensures { to.new ≡ from.now };

    ghost laws: { Pointwise number numbers };

    // A clone is the element itself, so that a slice can be filled with one.
    ghost clones: { (x : Self) → Self.is_infallible x × ((y : Self) → Self.is_clone x y → y ≡ x) };
}

// Letters: each sticker of the solved cube shows the letter of its face.
impl Facelet for u8 {
    ghost number = { λ x. x };

    ghost numbers = { λ l. l };

    ghost shown = { λ n j. get_or letters (j / n / n) 0 };

    ghost laws = { plain };

    ghost clones = { λ x. (tt, λ y e. e) };

    fn blank() -> u8 {
        0u8
    }

    fn shown_at(n: usize, j: usize) -> u8 {
        LETTERS[j / n / n]
    }

    fn copy(from: &[u8], to: &mut [u8]) {
        ground::bytes::copy(from, to);
    }
}

// Ids: each sticker of the solved cube has its index.
impl Facelet for u16 {
    ghost number = { λ x. x };

    ghost numbers = { λ l. l };

    ghost shown = { λ n j. j };

    ghost laws = { plain };

    ghost clones = { λ x. (tt, λ y e. e) };

    fn blank() -> u16 {
        0u16
    }

    fn shown_at(_n: usize, j: usize) -> u16 {
        j as u16
    }

    fn copy(from: &[u16], to: &mut [u16]) {
        to.copy_from_slice(from);
    }
}

// The refusal of a list runner on a cube and a work area of these lengths.
pub fn check_apply(n: usize, cube: usize, work: usize, moves: &[MoveCode]) -> Result<(), Refusal>
    ensures { result ≡ done (apply_refusal n cube work moves.now) }
{
    cube::check_cube(n, cube)?;
    cube::check_cube(n, work)?;
    generic_cube::check_moves(n, moves)
}
