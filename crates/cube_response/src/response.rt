// The response to an input.
ghost use Rattle.std.specs.Prelude.{◌≡◌, ◌++◌, ◌≤◌, length};
ghost use Rattle.generic_cube.specs.Code.{list_refusal};
ghost use Rattle.tokens.specs.Words.{tokens_of};
ghost use Rattle.scramble_parser.specs.Parse.{reading};
ghost use Rattle.geometric_moves.specs.Turn.{run};
ghost use Rattle.facelet_cube.specs.Cube.{solved_cube};
ghost use Rattle.facelet_cube.specs.Inner.{Runnable};
ghost use Rattle.cube_response.specs.Program.{feed, scramble_answer, answer_to, response, Responds};
ghost use Rattle.cube_response.specs.Inner.{SizeAndRoom};

use crate::{lines, text};
use ground::codes::MoveCode;
use scramble_parser::ParseError;

// A work area for the largest cube, and a slot for each byte of a line: a line holds fewer moves than that. Fixed memory is a rule of the project.
const WORK_AREA: [u8; 2400] = [0; 2400];

const SLOTS: [MoveCode; 4096] = [0; 4096];

// The solved cube after a list that is taken: neither call refuses.
fn turn_solved(n: usize, moves: &[MoveCode], cube: &mut [u8], work: &mut [u8])
    requires { Runnable n (length cube.old) (length work.old) moves.now }
    ensures { cube.new ≡ run n moves.now (solved_cube n) }
{
    let _ = facelet_cube::cube::solved(n, cube);
    let _ = facelet_moves::apply_moves(n, cube, work, moves);
}

fn put_cube(n: usize, moves: &[MoveCode], out: &mut [u8]) -> usize
    requires { SizeAndRoom n (length out.old) × (list_refusal n moves.now ≡ 0) }
    ensures { Responds (run n moves.now (solved_cube n) ++ feed) out.old out.new result }
{
    let count = 6 * n * n;
    let mut work = WORK_AREA;
    turn_solved(n, moves, &mut out[..count], &mut work[..count]);
    out[count] = b'\n';
    count + 1
}

// The cube after a scramble, or its refusal.
fn respond_to_scramble(n: usize, two: &[u8], out: &mut [u8]) -> usize
    requires { SizeAndRoom n (length out.old) × (length two.now ≤ 4096) }
    ensures { Responds (scramble_answer n (reading n (tokens_of two.now))) out.old out.new result }
{
    let mut codes = SLOTS;
    match scramble_parser::parse_scramble(n, two, &mut codes) {
        Ok(count) => put_cube(n, &codes[..count], out),
        Err(error) => match error {
            ParseError::At(fault) => text::put_refusal(u8::from(fault.refusal), fault.place, out),
            ParseError::Refused(_) => unreachable!(),
        },
    }
}

fn respond_to_lines(one: &[u8], two: &[u8], out: &mut [u8]) -> usize
    requires { 2401 ≤ length out.old }
    ensures { Responds (answer_to one.now two.now) out.old out.new result }
{
    if 4096 < one.len() {
        return text::put(out, 0, b"line too long\n");
    }
    if 4096 < two.len() {
        return text::put(out, 0, b"line too long\n");
    }
    let Some(n) = lines::read_size(one) else {
        return text::put(out, 0, b"refused 1\n");
    };
    respond_to_scramble(n, two, out)
}

// The response to what was read, at the front of `out`: the bytes' count.
pub fn respond(input: &[u8], out: &mut [u8]) -> usize
    requires { 2401 ≤ length out.old }
    ensures { Responds (response input.now) out.old out.new result }
{
    respond_to_lines(lines::first(input), lines::first(lines::rest(input)), out)
}
