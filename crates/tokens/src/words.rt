ghost use Rattle.std.specs.Prelude.{◌≡◌, [], false, ◌<◌, ◌≤◌, length, get_or};
ghost use Rattle.tokens.specs.Words.{is_space, group_signs, is_sign, ends_word};
ghost use Rattle.tokens.specs.Inner.{signs_of, Skipped, Found, Ahead};

// A word of a text: where it starts, and where it ends.
#[derive(Clone, Copy, Debug, PartialEq, Eq)]
pub struct Word {
    pub start: usize,
    pub end: usize,
}

// The bytes that part tokens.
#[tactic(auto, unfolding(crate::specs::Words::is_space, ground::specs::Choice::between))]
fn is_space(b: u8) -> bool
    ensures { result ≡ is_space b }
{
    matches!(b, b' ' | b'\t'..=b'\r')
}

// The signs of groups by their bytes, from `(` on, a bit each: a match of the bytes jumps through a table for each byte of a word.
const SIGNS: u64 = 11258999068688403;

// Whether a byte is one of the signs of groups: ( ) [ ] , :
pub fn is_group_sign(b: u8) -> bool
    ensures { result ≡ is_sign group_signs b }
{
    if b < 40 {
        return false;
    }
    if 93 < b {
        return false;
    }
    (SIGNS >> (b - 40)) % 2 == 1
}

// Whether a byte is a sign, in a text with groups or in one without.
#[tactic(auto, unfolding(crate::specs::Words::is_sign, ground::specs::Choice::any))]
fn is_sign(grouped: bool, b: u8) -> bool
    ensures { result ≡ is_sign (signs_of grouped) b }
{
    grouped && is_group_sign(b)
}

// Whether a byte ends the word before it.
#[tactic(auto, unfolding(crate::specs::Words::ends_word))]
fn ends_word(grouped: bool, b: u8) -> bool
    ensures { result ≡ ends_word (signs_of grouped) b }
{
    is_space(b) || is_sign(grouped, b)
}

// The first place from i on that holds no space. By a `while`, as a `for` over the places takes up to half as long again where there are many.
fn skip(text: &[u8], i: usize) -> usize
    requires { i ≤ length text.now }
    ensures { Skipped text.now i result }
{
    let mut j = i;
    while j < text.len() {
        if !is_space(text[j]) {
            return j;
        }
        j += 1;
    }
    j
}

// The end of the word that starts at i: a sign is a word of its own.
fn word_end(grouped: bool, text: &[u8], i: usize) -> usize
    requires { (i < length text.now) × (is_space (get_or text.now i 0) ≡ false) }
    ensures { Found (signs_of grouped) text.now i i result }
{
    if is_sign(grouped, text[i]) {
        return i + 1;
    }
    for e in i + 1..text.len() {
        if ends_word(grouped, text[e]) {
            return e;
        }
    }
    text.len()
}

// The first word from i on, in a text with groups or in one without: the flag is the definition `signs_of`'s, and both ways end at one place.
pub fn next_word(grouped: bool, text: &[u8], i: usize) -> Option<Word>
    requires { i ≤ length text.now }
    ensures { Ahead (signs_of grouped) text.now i result }
{
    let start = skip(text, i);
    if start < text.len() {
        let end = word_end(grouped, text, start);
        return Some(Word { start, end });
    }
    None
}

// The first word from i on of a scramble, which has no signs.
pub fn next_token(text: &[u8], i: usize) -> Option<Word>
    requires { i ≤ length text.now }
    ensures { Ahead [] text.now i result }
{
    next_word(false, text, i)
}
