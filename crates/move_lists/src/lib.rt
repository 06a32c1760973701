// Lists of codes, simplified and inverted: simplify_moves and invert_moves of scramble_parser.rs.
#![tactic(auto)]

ghost use Rattle.std.specs.Prelude.{◌≡◌, ◌<◌, ◌≤◌, length};
ghost use Rattle.std.proofs.lemmas.List.Edits.{sets};
ghost use Rattle.generic_cube.specs.Answers.{done};
ghost use Rattle.generic_cube.specs.Code.{move_of};
ghost use Rattle.move_lists.specs.Lists.{Turned, inverse_of, inverse, same_refusal, SimplifyResult, InvertResult};
ghost use Rattle.move_lists.specs.Inner.{Pushable, Pushed, Shrunk};

use ground::codes::MoveCode;
use ground::refusals::Refusal;

// The refusal of a list whose answer needs as much room as itself.
fn check_same(n: usize, list: &[MoveCode], room: usize) -> Result<(), Refusal>
    ensures { result ≡ done (same_refusal n list.now room) }
{
    if !generic_cube::is_size(n) {
        return Err(Refusal::Size);
    }
    generic_cube::check_moves(n, list)?;
    if room < list.len() {
        return Err(Refusal::Room);
    }
    Ok(())
}

// One more code on a stack in which nothing joins, the first k of `out`: the stack stands in the slice that was lent, as memory is fixed.
fn push(out: &mut [MoveCode], k: usize, code: MoveCode) -> usize
    requires { Pushable out.old k code }
    ensures { Pushed out.old k code out.new result }
{
    if k == 0 {
        out[k] = code;
        return k + 1;
    }
    let top = out[k - 1];
    if !generic_cube::do_join(top, code) {
        out[k] = code;
        return k + 1;
    }
    let turn = (generic_cube::turn_of(top) + generic_cube::turn_of(code)) % 4;
    if turn == 0 {
        return k - 1;
    }
    out[k - 1] = generic_cube::with_turn(top, turn);
    k
}

// The simplified list at the front of `out`.
fn stack(list: &[MoveCode], out: &mut [MoveCode]) -> usize
    requires { (length list.now ≤ length out.old) × Turned list.now }
    ensures { Shrunk list.now out.old out.new result }
{
    let mut k = 0;
    for &code in list {
        k = push(out, k, code);
    }
    k
}

// Joins neighbours until none join.
pub fn simplify_moves(n: usize, list: &[MoveCode], out: &mut [MoveCode]) -> Result<usize, Refusal>
    ensures { SimplifyResult n list.now out.old out.new result }
{
    check_same(n, list, out.len())?;
    let count = stack(list, out);
    out[count..list.len()].fill(0);
    Ok(count)
}

// The turn t, which is not 0, becomes 4 - t.
pub fn inverse_code(code: MoveCode) -> MoveCode
    ensures { 0 < (move_of code).turn → result ≡ inverse_of code }
{
    generic_cube::with_turn(code, (4 - generic_cube::turn_of(code)) % 4)
}

fn invert_into(list: &[MoveCode], out: &mut [MoveCode])
    requires { (length list.now ≤ length out.old) × Turned list.now }
    ensures { out.new ≡ sets out.old 0 (inverse list.now) }
{
    for j in 0..list.len() {
        out[j] = inverse_code(list[list.len() - 1 - j]);
    }
}

// The moves that undo a list's.
pub fn invert_moves(n: usize, list: &[MoveCode], out: &mut [MoveCode]) -> Result<usize, Refusal>
    ensures { InvertResult n list.now out.old out.new result }
{
    check_same(n, list, out.len())?;
    invert_into(list, out);
    Ok(list.len())
}
