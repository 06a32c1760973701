// What stands in a record: RECORDS.md says how it is written. Fixed memory is a rule of the project, so nothing here is grown.
ghost use Rattle.std.specs.Prelude.{◌≡◌, ◌≤◌, ◌<◌, length, IfOk, IfSome};

/// How many fields a record has.
pub const FIELDS: usize = 17;

/// How much room a record's slices have: the third slice of bytes has less when it is lent.
pub const ROOM: usize = 65536;

pub const THIRD_ROOM: usize = 4096;

pub const NUMBER_ROOM: usize = 1024;

/// Numbers are below this.
const LIMIT: usize = 1_048_576;

/// What is wrong with a record.
#[derive(Clone, Copy, Debug, PartialEq, Eq)]
pub enum Fault {
    /// The library gave something else.
    Differs,

    /// The line is no record.
    NoRecord,
}

/// The entry that a record calls.
#[derive(Clone, Copy, Debug, PartialEq, Eq)]
pub enum Entry {
    Solved,
    SolvedIds,
    IsSolved,
    StickerIndex,
    Mask,
    ApplyMoves,
    ApplyMovesToIds,
    AllMoves,
    ParseScramble,
    WriteScramble,
    SimplifyMoves,
    InvertMoves,
    PruningTable,
    IdaStar,
    ParseAlgorithm,
    Program,
}

impl Entry {
    fn of(name: &[u8]) -> Option<Entry> {
        let entry = match name {
            b"solved" => Entry::Solved,
            b"solved_ids" => Entry::SolvedIds,
            b"is_solved" => Entry::IsSolved,
            b"sticker_index" => Entry::StickerIndex,
            b"mask" => Entry::Mask,
            b"apply_moves" => Entry::ApplyMoves,
            b"apply_moves_to_ids" => Entry::ApplyMovesToIds,
            b"all_moves" => Entry::AllMoves,
            b"parse_scramble" => Entry::ParseScramble,
            b"write_scramble" => Entry::WriteScramble,
            b"simplify_moves" => Entry::SimplifyMoves,
            b"invert_moves" => Entry::InvertMoves,
            b"pruning_table" => Entry::PruningTable,
            b"ida_star" => Entry::IdaStar,
            b"parse_algorithm" => Entry::ParseAlgorithm,
            b"program" => Entry::Program,
            _ => return None,
        };
        Some(entry)
    }
}

/// A decimal number below the limit.
fn number(word: &[u8]) -> Option<usize>
    ensures { IfSome result (λ x. x < LIMIT) }
{
    if word.is_empty() {
        return None;
    }
    let mut x = 0;
    for b in word {
        if !b.is_ascii_digit() {
            return None;
        }
        x = x * 10 + (b - b'0') as usize;
        if LIMIT <= x {
            return None;
        }
    }
    Some(x)
}

/// A value so many times over: `v` is v once, `vxk` k times.
fn times(word: &[u8]) -> Option<(usize, usize)> {
    match word.iter().position(|&b| b == b'x') {
        None => Some((number(word)?, 1)),
        Some(at) => Some((number(&word[..at])?, number(&word[at + 1..])?)),
    }
}

/// What a slice is of: bytes, or numbers.
pub trait Item: Copy + PartialEq {
    /// Takes the first item off a text that is not empty: a value, how many times over, and what is left.
    fn take(text: &[u8]) -> Option<(Self, usize, &[u8])>;
}

/// A byte stands for itself, `#v;` for the byte v, `#vxk;` for k of them.
impl Item for u8 {
    fn take(text: &[u8]) -> Option<(u8, usize, &[u8])> {
        let (&first, rest) = text.split_first()?;
        if first != b'#' {
            return Some((first, 1, rest));
        }
        let end = rest.iter().position(|&b| b == b';')?;
        let (value, count) = times(&rest[..end])?;
        Some((u8::try_from(value).ok()?, count, &rest[end + 1..]))
    }
}

/// Numbers have one space between them.
impl Item for u16 {
    fn take(text: &[u8]) -> Option<(u16, usize, &[u8])> {
        let end = text.iter().position(|&b| b == b' ').unwrap_or(text.len());
        let (value, count) = times(&text[..end])?;
        Some((
            u16::try_from(value).ok()?,
            count,
            text.get(end + 1..).unwrap_or(b""),
        ))
    }
}

/// Puts the items of a field into a slice: how many there are. Each takes a byte of the text or more, so that its length bounds the walk.
fn fill<T: Item>(text: &[u8], out: &mut [T]) -> Result<usize, Fault>
    ensures { IfOk result (λ n. n ≤ length out.new) }
{
    let mut len = 0;
    let mut left = text;
    for _ in 0..text.len() {
        if left.is_empty() {
            break;
        }
        let Some((value, count, rest)) = T::take(left) else {
            return Err(Fault::NoRecord);
        };
        if out.len() - len < count {
            return Err(Fault::NoRecord);
        }
        for slot in out[len..len + count].iter_mut() {
            *slot = value;
        }
        len += count;
        left = rest;
    }
    Ok(len)
}

/// The items of a field, in a slice of their own.
pub fn lend<'a, T: Item>(text: &[u8], room: &'a mut [T]) -> Result<&'a mut [T], Fault> {
    let len = fill(text, room)?;
    Ok(&mut room[..len])
}

/// Whether a slice holds the items of a field, of which there are no more than there is room for.
pub fn holds<T: Item>(text: &[u8], room: usize, slice: &[T]) -> Result<bool, Fault> {
    let mut free = room;
    let mut same = true;
    let mut left = text;
    let mut behind = slice;
    for _ in 0..text.len() {
        if left.is_empty() {
            break;
        }
        let Some((value, count, rest)) = T::take(left) else {
            return Err(Fault::NoRecord);
        };
        if free < count {
            return Err(Fault::NoRecord);
        }
        free -= count;
        if count <= behind.len() {
            let (front, back) = behind.split_at(count);
            same = same && front.iter().all(|x| *x == value);
            behind = back;
        } else {
            same = false;
        }
        left = rest;
    }
    Ok(same && behind.is_empty())
}

/// The packed answer: `=`, a number and a value, one space between. What is no number counts as the limit.
fn answer(text: &[u8]) -> Option<u64> {
    let text = text.get(1..).unwrap_or(b"");
    let space = text.iter().position(|&b| b == b' ').unwrap_or(text.len());
    let no = number(&text[..space]).unwrap_or(LIMIT);
    let value = number(text.get(space + 1..).unwrap_or(b""))?;
    Some((no + 256 * value) as u64)
}

/// The fields of a line.
#[derive(Clone, Copy)]
struct Fields<'a> {
    all: [&'a [u8]; FIELDS],
}

/// Parts a line into its fields, if it has so many.
fn split_fields(line: &[u8]) -> Option<Fields<'_>> {
    let mut fields = [b"".as_slice(); FIELDS];
    let mut count = 0;
    for field in line.split(|&b| b == b'|') {
        if count == FIELDS {
            return None;
        }
        fields[count] = field;
        count += 1;
    }
    if count < FIELDS {
        return None;
    }
    Some(Fields { all: fields })
}

/// A call, and what the library must give: the six slices, as they are lent and as they must be afterwards, stand in fields.
#[derive(Clone, Copy, Debug)]
pub struct Record<'a> {
    pub entry: Entry,
    pub n: usize,
    pub p: usize,
    pub q: usize,
    pub before: [&'a [u8]; 6],
    pub answer: u64,
    pub after: [&'a [u8]; 6],
}

impl<'a> Record<'a> {
    pub(crate) fn read(line: &'a [u8]) -> Option<Record<'a>> {
        let fields = split_fields(line)?.all;
        let mut before = [b"".as_slice(); 6];
        let mut after = [b"".as_slice(); 6];
        for k in 0..6 {
            before[k] = fields[4 + k];
            after[k] = if fields[11 + k] == b"~".as_slice() {
                fields[4 + k]
            } else {
                fields[11 + k]
            };
        }
        Some(Record {
            entry: Entry::of(fields[0])?,
            n: number(fields[1])?,
            p: number(fields[2])?,
            q: number(fields[3])?,
            before,
            answer: answer(fields[10])?,
            after,
        })
    }
}
