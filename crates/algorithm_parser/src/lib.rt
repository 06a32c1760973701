// Algorithms as coaches write them, with groups: (A)3, [A, B], [A: B]. No part of the source; its scrambles have no groups.
#![tactic(auto)]

ghost use Rattle.std.specs.Prelude.{◌≡◌, true, ◌||◌, List, [], ℕ, ◌≤◌, ◌<◌, length, eqb};
ghost use Rattle.generic_cube.specs.Sizes.{sized};
ghost use Rattle.algorithm_parser.specs.Algorithm.{Alg};
ghost use Rattle.algorithm_parser.specs.Groups.{round_end, square_end, paired, sequence_at, group_at, AlgorithmResult};
ghost use Rattle.algorithm_parser.specs.Inner.{Repeat, Behind, Told, Asked, Laid, LaidBoth, Written};

use ground::codes::MoveCode;
use ground::refusals::Refusal;
use scramble_parser::ParseError;
use tokens::Fault;

pub mod moves;

// How a part of a text reads: where it ends, and the place behind its moves in the output.
#[derive(Clone, Copy, Debug, PartialEq, Eq)]
pub struct Read {
    pub end: usize,
    pub next: usize,
}

// What is read: a text for a size, and the cap, the place that no count passes.
#[derive(Clone, Copy)]
pub struct Source<'a> {
    pub n: usize,
    pub text: &'a [u8],
    pub cap: usize,
}

// Whether a sign opens a group. `is_parting` asks the same of two other signs: with the signs as parameters neither question would have a name.
fn is_opening(b: u8) -> bool
    ensures { result ≡ (eqb b 40 || eqb b 91) }
{
    b == b'(' || b == b'['
}

// Whether a sign parts the two sequences of a square group.
fn is_parting(b: u8) -> bool
    ensures { result ≡ (eqb b 44 || eqb b 58) }
{
    b == b',' || b == b':'
}

// How often a round group is repeated, by the byte behind its `)`, if that is a digit 1 to 9.
#[tactic(auto, unfolding(ground::specs::Choice::between))]
fn repeat(b: u8) -> Option<u8>
    ensures { Repeat b result }
{
    match b {
        b'1'..=b'9' => Some(b - b'0'),
        _ => None,
    }
}

// The end of a round group, whose sequence was read and put from j on: `)`, and the copies that its repeat asks for.
fn round(source: Source, read: Read, out: &mut [MoveCode], j: usize) -> Result<Read, Fault>
    requires { Behind source.cap out.old j read.next read.next × (read.end ≤ length source.text.now) }
    ensures { (start : List ℕ) (a : Alg) → Laid source.entry.cap start j a out.old read.next → Told source.entry.cap start j (round_end source.entry.text.now a read.end) out.new result }
{
    if tokens::at(source.text, read.end) != b')' {
        return tokens::refuse(Refusal::Sign, read.end);
    }
    let end = read.end + 1;
    let Some(times) = repeat(tokens::at(source.text, end)) else {
        return Ok(Read { end, ..read });
    };
    let next = moves::put_copies(out, j, read.next, times, source.cap);
    Ok(Read { end: end + 1, next })
}

// The end of a square group, whose sequences were put from j to mid and, the one read last, from there on: `]`, then the first inverted, and for
// a comma the second.
fn square(
    source: Source,
    sign: u8,
    read: Read,
    out: &mut [MoveCode],
    j: usize,
    mid: usize,
) -> Result<Read, Fault>
    requires { (Behind source.cap out.old j mid read.next) × (read.end ≤ length source.text.now) }
    ensures { (start : List ℕ) (a b : Alg) → LaidBoth source.entry.cap start j a mid b out.old read.next → Told source.entry.cap start j (square_end source.entry.text.now (paired sign a b) read.end) out.new result }
{
    if tokens::at(source.text, read.end) != b']' {
        return tokens::refuse(Refusal::Sign, read.end);
    }
    let end = read.end + 1;
    let next = moves::put_inverse(out, j, mid, read.next, source.cap);
    if sign != b',' {
        return Ok(Read { end, next });
    }
    let next = moves::put_inverse(out, mid, read.next, next, source.cap);
    Ok(Read { end, next })
}

// Reads from i on up to a sign that opens no group, or to the text's end, and puts the moves from j on.
#[cycle(group_sequence)]
fn sequence(
    source: Source,
    i: usize,
    left: usize,
    out: &mut [MoveCode],
    j: usize,
) -> Result<Read, Fault>
    requires { Asked source.n source.text.now i source.cap out.old j }
    ensures { Told source.entry.cap out.old j (sequence_at source.entry.n source.entry.text.now left i) out.new result }
{
    let mut read = Read { end: i, next: j };
    while let Some(word) = tokens::words::next_word(true, source.text, read.end) {
        let first = source.text[word.start];
        if is_opening(first) {
            if left == 0 {
                return tokens::refuse(Refusal::Level, word.start);
            }
            read = group(source, word.start, left - 1, out, read.next)?;
            continue;
        }
        if tokens::words::is_group_sign(first) {
            return Ok(Read {
                end: word.start,
                ..read
            });
        }
        let code = scramble_parser::read_word(source.n, source.text, word)?;
        read = Read {
            end: word.end,
            next: moves::put(out, read.next, code, source.cap),
        };
    }
    Ok(Read {
        end: source.text.len(),
        ..read
    })
}

// Reads the group whose opening sign stands at s, and puts its moves from j on.
#[cycle(group_sequence)]
fn group(
    source: Source,
    s: usize,
    left: usize,
    out: &mut [MoveCode],
    j: usize,
) -> Result<Read, Fault>
    requires { (Asked source.n source.text.now s source.cap out.old j) × (s < length source.text.now) }
    ensures { Told source.entry.cap out.old j (group_at source.entry.n source.entry.text.now left s) out.new result }
{
    let first = sequence(source, s + 1, left, out, j)?;
    if source.text[s] == b'(' {
        return round(source, first, out, j);
    }
    let sign = tokens::at(source.text, first.end);
    if !is_parting(sign) {
        return tokens::refuse(Refusal::Sign, first.end);
    }
    let second = sequence(source, first.end + 1, left, out, first.next)?;
    square(source, sign, second, out, j, first.next)
}

// Reads the whole text and counts its moves, or finds its first error. It has no output to write to.
fn measure(source: Source) -> Result<Read, Fault>
    requires { (sized source.n ≡ true) × (0 < source.cap) }
    ensures { Told source.entry.cap [] 0 (sequence_at source.entry.n source.entry.text.now 8 0) [] result }
{
    sequence(source, 0, 8, &mut [], 0)
}

// Reads it once more, and puts its moves.
fn write(source: Source, out: &mut [MoveCode])
    requires { (sized source.n ≡ true) × (length out.old < source.cap) }
    ensures { Written (sequence_at source.entry.n source.entry.text.now 8 0) out.old out.new }
{
    let _ = sequence(source, 0, 8, out, 0);
}

// Reads a text as moves, groups expanded. Nothing is written before all is known.
pub fn parse_algorithm(n: usize, text: &[u8], out: &mut [MoveCode]) -> Result<usize, ParseError>
    ensures { AlgorithmResult n text.now out.old out.new result }
{
    if !generic_cube::is_size(n) {
        return Err(Refusal::Size.into());
    }
    let cap = out.len() + 1;
    let source = Source { n, text, cap };
    let read = measure(source)?;
    if read.end < text.len() {
        let fault = Fault {
            refusal: Refusal::Sign,
            place: read.end,
        };
        return Err(fault.into());
    }
    if out.len() < read.next {
        return Err(Refusal::Room.into());
    }
    write(source, out);
    Ok(read.next)
}
