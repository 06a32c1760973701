// The scramble reader: scramble_parser.rs.
#![tactic(auto)]

ghost use Rattle.std.specs.Prelude.{◌≡◌, true, ◌≤◌, length};
ghost use Rattle.std.proofs.lemmas.List.Edits.{sets};
ghost use Rattle.generic_cube.specs.Sizes.{sized};
ghost use Rattle.tokens.specs.Words.{tokens_of};
ghost use Rattle.scramble_parser.specs.Parse.{reading, ParseResult};
ghost use Rattle.scramble_parser.specs.Inner.{word_read, tally, prefix};

use ground::codes::MoveCode;
use ground::refusals::Refusal;
use tokens::Fault;
use tokens::words::Word;

// Why a text is no list of moves: a refusal of the whole, or a bad token with the byte at fault.
#[derive(Clone, Copy, Debug, PartialEq, Eq)]
pub enum ParseError {
    Refused(Refusal),
    At(Fault),
}

impl From<Refusal> for ParseError {
    ghost use Rattle.scramble_parser.specs.declared.ParseError.TheVariants.{Refused};

    ghost from_gives = { λ r e. e ≡ Refused r };

    fn from(refusal: Refusal) -> ParseError {
        ParseError::Refused(refusal)
    }
}

impl From<Fault> for ParseError {
    ghost use Rattle.scramble_parser.specs.declared.ParseError.TheVariants.{At};

    ghost from_gives = { λ f e. e ≡ At f };

    fn from(fault: Fault) -> ParseError {
        ParseError::At(fault)
    }
}

// Reads a word of the text as a token. The place of its fault is one in the text.
#[inline(always)]
pub fn read_word(n: usize, text: &[u8], word: Word) -> Result<MoveCode, Fault>
    requires { (sized n ≡ true) × (word.start ≤ word.end) × (word.end ≤ length text.now) }
    ensures { result ≡ word_read n text.now word }
{
    match tokens::read_token(n, &text[word.start..word.end]) {
        Ok(code) => Ok(code),
        Err(fault) => tokens::refuse(fault.refusal, word.start + fault.place),
    }
}

// Reads the whole text and counts its moves, or finds its first bad token. The next search begins where a word ends: an iterator of words
// would be a type of its own around that place, and no plainer.
fn count_moves(n: usize, text: &[u8]) -> Result<usize, Fault>
    requires { sized n ≡ true }
    ensures { result ≡ tally 0 (reading n (tokens_of text.now)) }
{
    let mut i = 0;
    let mut count: usize = 0;
    while let Some(word) = tokens::words::next_token(text, i) {
        read_word(n, text, word)?;
        count += 1;
        i = word.end;
    }
    Ok(count)
}

// Writes the moves of the text, up to the first word that is none.
fn write_moves(n: usize, text: &[u8], out: &mut [MoveCode])
    requires { (sized n ≡ true) × (length (prefix n (tokens_of text.now)) ≤ length out.old) }
    ensures { out.new ≡ sets out.old 0 (prefix n (tokens_of text.now)) }
{
    let mut i = 0;
    for slot in out.iter_mut() {
        let Some(word) = tokens::words::next_token(text, i) else {
            return;
        };
        let Ok(code) = read_word(n, text, word) else {
            return;
        };
        *slot = code;
        i = word.end;
    }
}

// Reads a text as moves. Nothing is written before all is known.
pub fn parse_scramble(n: usize, text: &[u8], out: &mut [MoveCode]) -> Result<usize, ParseError>
    ensures { ParseResult n text.now out.old out.new result }
{
    if !generic_cube::is_size(n) {
        return Err(Refusal::Size.into());
    }
    let count = count_moves(n, text)?;
    if out.len() < count {
        return Err(Refusal::Room.into());
    }
    write_moves(n, text, out);
    Ok(count)
}
