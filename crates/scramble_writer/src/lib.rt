// The scramble writer, for which the source has none: the text that the reader reads back.
#![tactic(auto)]

ghost use Rattle.std.specs.Prelude.{◌≡◌, [], ◌∷◌, ◌<◌, ◌≤◌, ◌+◌, length, leb};
ghost use Rattle.ground.specs.Inner.{Put};
ghost use Rattle.generic_cube.specs.Answers.{done};
ghost use Rattle.scramble_writer.specs.Write.{kind_byte, mark_text, width_text, token_text, text_of, rest_text, list_text, write_refusal, WriteResult};
ghost use Rattle.scramble_writer.specs.Inner.{Writable};

use generic_cube::Move;
use ground::codes::MoveCode;
use ground::refusals::Refusal;

const LETTERS: [u8; 9] = *b"ULFRBDxyz";

// The letter of a kind: a wide kind's is its face's.
#[tactic(auto, unfolding(crate::specs::Write::kind_byte))]
fn kind_byte(kind: usize) -> u8
    requires { kind < 15 }
    ensures { result ≡ kind_byte kind }
{
    LETTERS[if kind < 6 { kind } else { kind - 6 }]
}

// Each `put_` writes from `at` on and gives the place behind. A struct of output and place would be no plainer: its contracts would have to say
// what becomes of the slice that it was lent.
fn put_byte(out: &mut [u8], at: usize, b: u8) -> usize
    requires { at + 1 ≤ length out.old }
    ensures { Put out.old at (b ∷ []) out.new result }
{
    out[at] = b;
    at + 1
}

fn put_digit(out: &mut [u8], at: usize, d: usize) -> usize
    requires { (at + 1 ≤ length out.old) × (d ≤ 10) }
    ensures { Put out.old at ((48 + d) ∷ []) out.new result }
{
    put_byte(out, at, (48 + d) as u8)
}

#[tactic(auto, unfolding(crate::specs::Write::mark_text), using(ground::proofs::PutLaws::put_none))]
fn put_mark(out: &mut [u8], at: usize, turn: usize) -> usize
    requires { at + length (mark_text turn) ≤ length out.old }
    ensures { Put out.old at (mark_text turn) out.new result }
{
    match turn {
        1 => at,
        2 => put_byte(out, at, b'2'),
        _ => put_byte(out, at, b'\''),
    }
}

// A width in decimal, nothing for 2.
#[tactic(auto, unfolding(crate::specs::Write::width_text))]
fn put_width(out: &mut [u8], at: usize, w: usize) -> usize
    requires { (at + length (width_text w) ≤ length out.old) × (w < 1024) }
    ensures { Put out.old at (width_text w) out.new result }
{
    if w == 2 {
        return at;
    }
    if w < 10 {
        return put_digit(out, at, w);
    }
    if w < 100 {
        let ones = put_digit(out, at, w / 10);
        return put_digit(out, ones, w % 10);
    }
    let tens = put_digit(out, at, w / 100);
    let ones = put_digit(out, tens, w / 10 % 10);
    put_digit(out, ones, w % 10)
}

fn put_token(out: &mut [u8], at: usize, m: Move) -> usize
    requires { Writable out.old at m }
    ensures { Put out.old at (token_text m) out.new result }
{
    let letter = kind_byte(m.kind);
    if generic_cube::is_wide(m.kind) {
        let a = put_width(out, at, m.width);
        let b = put_byte(out, a, letter);
        let c = put_byte(out, b, b'w');
        return put_mark(out, c, m.turn);
    }
    let a = put_byte(out, at, letter);
    put_mark(out, a, m.turn)
}

fn put_code(out: &mut [u8], at: usize, code: MoveCode) -> usize
    requires { at + length (text_of code) ≤ length out.old }
    ensures { Put out.old at (text_of code) out.new result }
{
    match generic_cube::read_code(code) {
        Ok(m) => put_token(out, at, m),
        Err(_) => at,
    }
}

// A space and a token for each code.
fn put_rest(out: &mut [u8], start: usize, list: &[MoveCode]) -> usize
    requires { start + length (rest_text list.now) ≤ length out.old }
    ensures { Put out.old start (rest_text list.now) out.new result }
{
    let mut at = start;
    for &code in list {
        let token = put_byte(out, at, b' ');
        at = put_code(out, token, code);
    }
    at
}

// The text of a list for which there is room.
fn put_text(list: &[MoveCode], out: &mut [u8]) -> usize
    requires { length (list_text list.now) ≤ length out.old }
    ensures { Put out.old 0 (list_text list.now) out.new result }
{
    let Some((&first, rest)) = list.split_first() else {
        return 0;
    };
    let at = put_code(out, 0, first);
    put_rest(out, at, rest)
}

// How many bytes a turn's suffix takes. The lengths are counted by themselves: a text written for its length alone takes half as long again.
#[tactic(auto, unfolding(crate::specs::Write::mark_text))]
fn mark_len(turn: usize) -> usize
    ensures { (result ≡ length (mark_text turn)) × (result ≤ 1) }
{
    if turn == 1 { 0 } else { 1 }
}

// How many bytes a width takes.
#[tactic(auto, unfolding(crate::specs::Write::width_text))]
fn width_len(width: usize) -> usize
    ensures { (result ≡ length (width_text width)) × (result ≤ 3) }
{
    match width {
        2 => 0,
        0..=9 => 1,
        10..=99 => 2,
        _ => 3,
    }
}

// How many bytes the token of a move takes.
fn token_len(m: Move) -> usize
    ensures { (result ≡ length (token_text m)) × (result ≤ 6) }
{
    let mark = mark_len(m.turn);
    if generic_cube::is_wide(m.kind) {
        return width_len(m.width) + (2 + mark);
    }
    1 + mark
}

// How many bytes the text of a code takes.
fn code_len(code: MoveCode) -> usize
    ensures { (result ≡ length (text_of code)) × (result ≤ 6) }
{
    match generic_cube::read_code(code) {
        Ok(m) => token_len(m),
        Err(_) => 0,
    }
}

// Whether there is room for a space and a token for each code. What is left is counted, so that no sum can wrap.
fn rest_fits(list: &[MoveCode], room: usize) -> bool
    ensures { result ≡ leb (length (rest_text list.now)) room }
{
    let mut left = room;
    for &code in list {
        let need = 1 + code_len(code);
        if left < need {
            return false;
        }
        left -= need;
    }
    true
}

// Whether there is room for the text of a list.
fn text_fits(list: &[MoveCode], room: usize) -> bool
    ensures { result ≡ leb (length (list_text list.now)) room }
{
    let Some((&first, rest)) = list.split_first() else {
        return true;
    };
    let need = code_len(first);
    need <= room && rest_fits(rest, room - need)
}

// The refusal of a list that is written: a width is above 1 and below n.
fn check_write(n: usize, list: &[MoveCode], room: usize) -> Result<(), Refusal>
    ensures { result ≡ done (write_refusal n list.now room) }
{
    if !generic_cube::is_size(n) {
        return Err(Refusal::Size);
    }
    generic_cube::check_moves_in(2, n - 1, list)?;
    if !text_fits(list, room) {
        return Err(Refusal::Room);
    }
    Ok(())
}

// Writes a list as text.
pub fn write_scramble(n: usize, list: &[MoveCode], out: &mut [u8]) -> Result<usize, Refusal>
    ensures { WriteResult n list.now out.old out.new result }
{
    check_write(n, list, out.len())?;
    Ok(put_text(list, out))
}
