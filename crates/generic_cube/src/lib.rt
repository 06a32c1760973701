// Sizes, move codes and lists of them: generic_cube.rs. This file alone knows how a code is put together.
#![tactic(auto)]

ghost use Rattle.std.specs.Prelude.{◌≡◌, ◌+◌, ◌*◌, ◌≤◌};
ghost use Rattle.ground.specs.Choice.{between};
ghost use Rattle.generic_cube.specs.Sizes.{sized, small, beyond};
ghost use Rattle.generic_cube.specs.Answers.{done};
ghost use Rattle.generic_cube.specs.Code.{code_of, move_of, turned_to, is_wide, bad_code, bad_width_in, outside, read_code, refusal_in, list_refusal, joins};
ghost use Rattle.generic_cube.specs.Inner.{Codable};

use ground::codes::MoveCode;
use ground::refusals::Refusal;

pub mod moves;
pub mod stickers;

// A move taken apart. Kinds: U 0, L 1, F 2, R 3, B 4, D 5, Uw 6, .., Dw 11, X 12, Y 13, Z 14. Turns: 1, 2, 3. A kind is a number and no enum,
// as the definition `move_of` takes every code apart, also one of kind 15, and `code_back` and `bad_code` speak of those.
#[derive(Clone, Copy, Debug, PartialEq, Eq)]
pub struct Move {
    pub kind: usize,
    pub width: usize,
    pub turn: usize,
}

// Whether a number is low to high.
#[tactic(auto, unfolding(ground::specs::Choice::between))]
pub fn is_between(low: usize, high: usize, x: usize) -> bool
    ensures { result ≡ between low high x }
{
    (low..=high).contains(&x)
}

// The sizes 1 to 104.
#[tactic(auto, unfolding(crate::specs::Sizes::sized))]
pub fn is_size(n: usize) -> bool
    ensures { result ≡ sized n }
{
    is_between(1, 104, n)
}

// The sizes of tables and search, 1 to 7.
#[tactic(auto, unfolding(crate::specs::Sizes::small))]
pub fn is_small(n: usize) -> bool
    ensures { result ≡ small n }
{
    is_between(1, 7, n)
}

// More than 255 candidates, or a limit or depth above 20.
#[tactic(auto, unfolding(crate::specs::Sizes::beyond))]
pub fn is_beyond(count: usize, limit: usize, depth: usize) -> bool
    ensures { result ≡ beyond count limit depth }
{
    255 < count || 20 < limit || 20 < depth
}

// Kinds 6 to 11 have a width.
#[tactic(auto, unfolding(crate::specs::Code::is_wide))]
pub fn is_wide(kind: usize) -> bool
    ensures { result ≡ is_wide kind }
{
    is_between(6, 11, kind)
}

// The code of a move.
#[tactic(auto, unfolding(crate::specs::Code::code_of))]
pub fn code_of(m: Move) -> MoveCode
    requires { Codable m }
    ensures { result ≡ code_of m }
{
    (m.width * 64 + m.kind * 4 + m.turn) as MoveCode
}

// How many widths the last six bits of a code leave it: none where they are no kind and turn, one, which is 0, where the kind has no width, and else all.
static WIDTHS: [MoveCode; 64] = [
    0, 1, 1, 1, 0, 1, 1, 1, 0, 1, 1, 1, 0, 1, 1, 1, 0, 1, 1, 1, 0, 1, 1, 1, 0, 1024, 1024, 1024, 0,
    1024, 1024, 1024, 0, 1024, 1024, 1024, 0, 1024, 1024, 1024, 0, 1024, 1024, 1024, 0, 1024, 1024,
    1024, 0, 1, 1, 1, 0, 1, 1, 1, 0, 1, 1, 1, 0, 0, 0, 0,
];

// Whether a code is no move's: one comparison, as every code of every list is tested.
fn is_bad_code(code: MoveCode) -> bool
    ensures { result ≡ bad_code (move_of code) }
{
    WIDTHS[(code % 64) as usize] <= code / 64
}

// Takes a code apart.
#[tactic(auto, unfolding(crate::specs::Code::move_of))]
fn parts_of(code: MoveCode) -> Move
    ensures { result ≡ move_of code }
{
    let c = code as usize;
    Move {
        kind: c / 4 % 16,
        width: c / 64,
        turn: c % 4,
    }
}

// Takes a code apart, or refuses it.
#[tactic(auto, unfolding(crate::specs::Code::read_code))]
pub fn read_code(code: MoveCode) -> Result<Move, Refusal>
    ensures { result ≡ read_code code }
{
    if is_bad_code(code) {
        return Err(Refusal::Code);
    }
    Ok(parts_of(code))
}

// Whether a width is outside the range low to high.
#[tactic(auto, unfolding(crate::specs::Code::outside))]
pub fn is_outside(low: usize, high: usize, width: usize) -> bool
    ensures { result ≡ outside low high width }
{
    !is_between(low, high, width)
}

// A code without its turn: kind and width in one number.
#[tactic(auto, unfolding(crate::specs::Code::move_of))]
fn without_turn(c: MoveCode) -> MoveCode
    ensures { result ≡ (move_of c).width * 16 + (move_of c).kind }
{
    c / 4
}

// Whether two neighbours join: they have equal kind and width. The search never makes two such moves in a row.
#[tactic(auto, using(crate::proofs::CodeLaws::joins_is))]
pub fn do_join(a: MoveCode, b: MoveCode) -> bool
    ensures { result ≡ joins a b }
{
    without_turn(a) == without_turn(b)
}

// The turn of a code.
#[tactic(auto, unfolding(crate::specs::Code::move_of))]
pub fn turn_of(code: MoveCode) -> MoveCode
    ensures { result ≡ (move_of code).turn }
{
    code % 4
}

// The same kind and width in another turn.
#[tactic(auto, using(crate::proofs::CodeLaws::turned_is))]
pub fn with_turn(code: MoveCode, turn: MoveCode) -> MoveCode
    requires { turn ≤ 3 }
    ensures { result ≡ turned_to code turn }
{
    code / 4 * 4 + turn
}

// Whether a move is wide and its width is not low to high.
fn is_bad_width(low: usize, high: usize, m: Move) -> bool
    ensures { result ≡ bad_width_in low high m }
{
    is_wide(m.kind) && is_outside(low, high, m.width)
}

// The lowest refusal in a list whose wide widths are low to high: a code that is none anywhere beats a bad width anywhere.
pub fn check_moves_in(low: usize, high: usize, list: &[MoveCode]) -> Result<(), Refusal>
    ensures { result ≡ done (refusal_in low high list.now) }
{
    // A flag, as the answer of a `Result` that waits takes more than half as long again a code.
    let mut has_bad_width = false;
    for &code in list {
        let m = read_code(code)?;
        if is_bad_width(low, high, m) {
            has_bad_width = true;
        }
    }
    if has_bad_width {
        return Err(Refusal::Width);
    }
    Ok(())
}

// The refusal of a list that is applied, simplified, inverted or searched with.
#[tactic(auto, unfolding(crate::specs::Code::refusal_in, crate::specs::Code::list_refusal))]
pub fn check_moves(n: usize, list: &[MoveCode]) -> Result<(), Refusal>
    ensures { result ≡ done (list_refusal n list.now) }
{
    check_moves_in(1, n, list)
}
