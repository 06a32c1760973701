ghost use Rattle.std.specs.Prelude.{◌≡◌, [], ◌∷◌, ◌<◌, ◌≤◌, ◌+◌, ◌*◌, length};
ghost use Rattle.ground.specs.Lists.{up_from};
ghost use Rattle.ground.specs.Inner.{Put};
ghost use Rattle.generic_cube.specs.Answers.{done};
ghost use Rattle.generic_cube.specs.AllMoves.{widths_of, turns_of, moves_of, all_refusal, AllMovesResult};
ghost use Rattle.generic_cube.specs.Inner.{Kinds};

use crate::Move;
use ground::codes::MoveCode;
use ground::refusals::Refusal;

// The kinds in the source's two loops.
const FACES: [usize; 6] = [0, 3, 2, 1, 5, 4];

const WIDES: [usize; 6] = [6, 7, 8, 9, 10, 11];

// Each `put_` writes from `start` on into the slice that was lent, and gives the place behind: memory is fixed, and a struct of slice and place would
// need a clause for what becomes of the slice.

// A kind and turn in `count` widths from `first` on.
fn put_widths(
    out: &mut [MoveCode],
    start: usize,
    kind: usize,
    turn: usize,
    first: usize,
    count: usize,
) -> usize
    requires { (start + count ≤ length out.old) × (first + count ≤ 53) × (kind < 15) × (turn ≤ 3) }
    ensures { Put out.old start (widths_of (up_from first count) kind turn) out.new result }
{
    let mut at = start;
    for i in 0..count {
        let width = first + i;
        out[at] = crate::code_of(Move { kind, width, turn });
        at += 1;
    }
    at
}

// A kind in the three turns.
fn put_turns(out: &mut [MoveCode], start: usize, kind: usize, first: usize, count: usize) -> usize
    requires { (start + 3 * count ≤ length out.old) × (first + count ≤ 53) × (kind < 15) }
    ensures { Put out.old start (turns_of (up_from first count) kind) out.new result }
{
    let mut at = start;
    for i in 0..3 {
        at = put_widths(out, at, kind, i + 1, first, count);
    }
    at
}

// Each kind of a list.
fn put_kinds(
    out: &mut [MoveCode],
    start: usize,
    kinds: &[usize],
    first: usize,
    count: usize,
) -> usize
    requires { (start + 18 * count ≤ length out.old) × (first + count ≤ 53) × Kinds kinds.now }
    ensures { Put out.old start (moves_of kinds.now (up_from first count)) out.new result }
{
    let mut at = start;
    for &kind in kinds {
        at = put_turns(out, at, kind, first, count);
    }
    at
}

#[tactic(auto, using(crate::proofs::CodeLaws::sized_bounds, crate::proofs::AllMovesLaws::length_all), unfolding(crate::specs::AllMoves::all_refusal, ground::specs::Refusals::lowest))]
fn check_all(n: usize, room: usize) -> Result<(), Refusal>
    ensures { result ≡ done (all_refusal n room) }
{
    if !crate::is_size(n) {
        return Err(Refusal::Size);
    }
    if room < 18 + 18 * (n / 2) {
        return Err(Refusal::Room);
    }
    Ok(())
}

// All moves of a size, in the source's order.
pub fn all_moves(n: usize, out: &mut [MoveCode]) -> Result<usize, Refusal>
    ensures { AllMovesResult n out.old out.new result }
{
    check_all(n, out.len())?;
    let faces = put_kinds(out, 0, &FACES, 0, 1);
    Ok(put_kinds(out, faces, &WIDES, 1, n / 2))
}
