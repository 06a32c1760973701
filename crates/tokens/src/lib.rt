// The words of a text and the grammar of a token: parse_scramble of scramble_parser.rs.
#![tactic(auto)]

ghost use Rattle.std.specs.Prelude.{◌≡◌, true, false, ◌<◌, ◌≤◌, get_or};
ghost use Rattle.generic_cube.specs.Sizes.{sized};
ghost use Rattle.tokens.specs.Token.{letter_at, mark_of, digit_of, is_digit, digits_of, number_of, token_width, is_wide_token, plain_kind, bad_digits, fault, read_behind, read_token};
ghost use Rattle.tokens.specs.Inner.{LetterPlace, FacePlace, Lettered};

use generic_cube::Move;
use ground::codes::MoveCode;
use ground::refusals::Refusal;

pub mod words;

// What is wrong with a token, and where in it.
#[derive(Clone, Copy, Debug, PartialEq, Eq)]
pub struct Fault {
    pub refusal: Refusal,
    pub place: usize,
}

// The answer to a token that has a fault. It makes the whole answer: a fault that is made first is copied with its gaps, byte by byte.
#[inline(always)]
pub fn refuse<T>(refusal: Refusal, place: usize) -> Result<T, Fault>
    ensures { result ≡ Err (record { refusal = refusal; place = place }) }
{
    Err(Fault { refusal, place })
}

// A suffix: its turn, and how many bytes it takes.
#[derive(Clone, Copy, Debug, PartialEq, Eq)]
pub struct Mark {
    pub turn: usize,
    pub size: usize,
}

// The byte at i, 0 past the end: what its clause promises other crates.
pub fn at(t: &[u8], i: usize) -> u8
    ensures { result ≡ get_or t.now i 0 }
{
    t.get(i).copied().unwrap_or(0)
}

// The places of U L F R B D by their letters, from B on, three bits each; 7 for other letters. A match of the letters is an eighth slower, as it
// jumps through a table for each token.
const FACES: u64 = 142989281726541692;

// The place of the letter at i among U L F R B D x y z.
#[tactic(auto, unfolding(crate::specs::Token::letter_of, ground::specs::Choice::position))]
fn letter(t: &[u8], i: usize) -> Option<usize>
    ensures { LetterPlace (get_or t.now i 0) result }
{
    match at(t, i) {
        b @ b'B'..=b'U' => {
            let place = (FACES >> (3 * (b - b'B'))) % 8;
            (place < 7).then_some(place as usize)
        }
        b @ b'x'..=b'z' => Some(usize::from(b - b'x') + 6),
        _ => None,
    }
}

// The place of the face's letter at i.
fn face(t: &[u8], i: usize) -> Option<usize>
    ensures { FacePlace (get_or t.now i 0) result }
{
    letter(t, i).filter(|place| *place < 6)
}

// The suffix that starts at i: `2` is a half turn, `'` a quarter back.
#[tactic(auto, unfolding(crate::specs::Token::mark_of))]
fn suffix(t: &[u8], i: usize) -> Mark
    ensures { (result ≡ mark_of (get_or t.now i 0)) × (result.turn ≤ 3) × (result.size ≤ 1) }
{
    match at(t, i) {
        b'2' => Mark { turn: 2, size: 1 },
        b'\'' => Mark { turn: 3, size: 1 },
        _ => Mark { turn: 1, size: 0 },
    }
}

// Whether a digit stands at i.
#[tactic(auto, unfolding(crate::specs::Token::is_digit, crate::specs::Token::digit_of, ground::specs::Choice::between))]
fn is_digit(t: &[u8], i: usize) -> bool
    ensures { result ≡ is_digit (get_or t.now i 0) }
{
    at(t, i).is_ascii_digit()
}

// The value of the digit at i, 10 for any other byte: `number` reads three places and uses k of them, so that an `Option` would only be opened again.
#[tactic(auto, unfolding(crate::specs::Token::is_digit, crate::specs::Token::digit_of, ground::specs::Choice::between))]
fn digit(t: &[u8], i: usize) -> usize
    ensures { (result ≡ digit_of (get_or t.now i 0)) × (result ≤ 10) }
{
    match at(t, i) {
        b @ b'0'..=b'9' => usize::from(b - b'0'),
        _ => 10,
    }
}

// How many digits the token starts with, 4 for more than three: what its clause promises other crates.
pub fn digits(t: &[u8]) -> usize
    ensures { (result ≡ digits_of t.now) × (result ≤ 4) }
{
    for i in 0..4 {
        if !is_digit(t, i) {
            return i;
        }
    }
    4
}

// The number that the first k digits write, k from 1 to 3.
#[tactic(auto, unfolding(crate::specs::Token::number_of))]
pub fn number(t: &[u8], k: usize) -> usize
    ensures { result ≡ number_of k t.now }
{
    let a = digit(t, 0);
    let b = digit(t, 1);
    let c = digit(t, 2);
    match k {
        1 => a,
        2 => a * 10 + b,
        _ => a * 100 + b * 10 + c,
    }
}

// The width: what the k digits write, 2 where there are none.
#[tactic(auto, unfolding(crate::specs::Token::token_width))]
fn width(t: &[u8], k: usize) -> usize
    ensures { result ≡ token_width t.now k }
{
    if k == 0 { 2 } else { number(t, k) }
}

// Whether the digits start with 0 or number more than three.
#[tactic(auto, unfolding(crate::specs::Token::bad_digits))]
fn has_bad_digits(t: &[u8], k: usize) -> bool
    ensures { result ≡ bad_digits t.now k }
{
    at(t, 0) == b'0' || 3 < k
}

// Whether the letter behind k digits is a face's and `w` stands after it.
#[tactic(auto, unfolding(crate::specs::Token::is_wide_token))]
fn is_wide_token(t: &[u8], k: usize, place: usize) -> bool
    requires { (k ≤ 4) × (place ≡ letter_at t.now k) }
    ensures { result ≡ is_wide_token t.now k }
{
    place < 6 && at(t, k + 1) == b'w'
}

// The kind of a letter without `w`.
#[tactic(auto, unfolding(crate::specs::Token::plain_kind))]
fn plain_kind(place: usize) -> usize
    requires { place ≤ 9 }
    ensures { result ≡ plain_kind place }
{
    if place < 6 { place } else { place + 6 }
}

// A letter without digits and `w`: its suffix, and nothing after it.
fn plain(n: usize, t: &[u8], place: usize) -> Result<MoveCode, Fault>
    requires { (Lettered t.now 0 place) × (is_wide_token t.now 0 ≡ false) }
    ensures { result ≡ read_behind n t.now 0 }
{
    let mark = suffix(t, 1);
    let end = 1 + mark.size;
    if t.len() != end {
        return refuse(Refusal::Ending, end);
    }
    let kind = plain_kind(place);
    let turn = mark.turn;
    Ok(generic_cube::code_of(Move {
        kind,
        width: 0,
        turn,
    }))
}

// A face's letter behind k digits, with `w`: its suffix, nothing after it, and the width.
fn wide(n: usize, t: &[u8], k: usize, place: usize) -> Result<MoveCode, Fault>
    requires { (sized n ≡ true) × (Lettered t.now k place) × (is_wide_token t.now k ≡ true) }
    ensures { result ≡ read_behind n t.now k }
{
    let mark = suffix(t, k + 2);
    let wide_end = k + 2 + mark.size;
    let width = width(t, k);
    let unfit = generic_cube::is_outside(2, n - 1, width);
    if t.len() != wide_end {
        return refuse(Refusal::Ending, wide_end);
    }
    if unfit {
        return refuse(Refusal::Width, 0);
    }
    let kind = place + 6;
    let turn = mark.turn;
    Ok(generic_cube::code_of(Move { kind, width, turn }))
}

// A token without digits: a letter with a suffix, or a face's letter, `w` and a suffix.
fn read_bare(n: usize, t: &[u8]) -> Result<MoveCode, Fault>
    requires { (sized n ≡ true) × (digits_of t.now ≡ 0) }
    ensures { result ≡ read_behind n t.now 0 }
{
    let Some(place) = letter(t, 0) else {
        return refuse(Refusal::Letter, 0);
    };
    if is_wide_token(t, 0, place) {
        return wide(n, t, 0, place);
    }
    plain(n, t, place)
}

// A token with k digits: a face's letter, `w` and a suffix.
fn read_numbered(n: usize, t: &[u8], k: usize) -> Result<MoveCode, Fault>
    requires { (sized n ≡ true) × (0 < k) × (k ≤ 4) }
    ensures { result ≡ read_behind n t.now k }
{
    if has_bad_digits(t, k) {
        return refuse(Refusal::Digits, 0);
    }
    let Some(place) = face(t, k) else {
        return refuse(Refusal::Letter, k);
    };
    if is_wide_token(t, k, place) {
        return wide(n, t, k, place);
    }
    refuse(Refusal::Ending, k + 1)
}

// Reads a token from left to right. The size is a number that was tested: the definitions take numbers, and each clause over a type of its own
// would unwrap it.
#[tactic(auto, unfolding(crate::specs::Token::read_token))]
pub fn read_token(n: usize, t: &[u8]) -> Result<MoveCode, Fault>
    requires { sized n ≡ true }
    ensures { result ≡ read_token n t.now }
{
    match digits(t) {
        0 => read_bare(n, t),
        k => read_numbered(n, t, k),
    }
}
