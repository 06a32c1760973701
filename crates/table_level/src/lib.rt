// One level of the table builder: every source of a stage is visited, and what it leads to is entered behind the entries that are there.
// Entries stay in the order in which they are found, and an index tells which states are there.
#![tactic(auto)]

ghost use Rattle.std.specs.Prelude.{◌≡◌, false, ◌+◌, ◌*◌, ◌≤◌, ◌<◌, length};
ghost use Rattle.generic_cube.specs.Sizes.{stickers};
ghost use Rattle.table.specs.Entries.{entry_key};
ghost use Rattle.table.specs.Inner.{KeyLength, with_entry};
ghost use Rattle.key_index.specs.InnerIndex.{classes};
ghost use Rattle.search_theory.specs.CubeSearch.{moved_by};
ghost use Rattle.table_level.specs.Inner.{entry_of, Tracking, Entered, Stretched, SweepTold, BuildReady, Candidate, LeadsTo, Fanned, Due, SourcesThere, SourceVisited, Passing, Refiled, Climbing, Levelled, next_stage, outgrown_stage};

use ground::codes::MoveCode;
use key_index::{CLASSES, Classes, Found, RunFull};
use table::Entries;

// The table that is asked for: of the cubes of a size that candidates lead to from the starting cubes, by at most `depth` of them.
#[derive(Clone, Copy)]
pub struct Job<'a> {
    pub n: usize,
    pub starts: &'a [u8],
    pub moves: &'a [MoveCode],
    pub depth: u8,
    ghost ready: { BuildReady n depth moves.now },
}

// Why a stretch of a level comes to no end: a run of the index is full, and so many entries are there; or the slice is full.
#[derive(Clone, Copy, Debug, PartialEq, Eq)]
pub enum Halt {
    Crowded(usize),
    Full,
}

// Where building stands: the level whose entries get `number` is due, for the sources from `from` up to `last`; its entries begin at
// `base`, and `count` are there. Sources are the starting cubes for level 0, else the entries of the level before. A small index serves
// until it is outgrown. `large` is a fact of its own beside numbers that hold either way, so an enum of two structs would say no more.
#[derive(Clone, Copy, Debug, PartialEq, Eq)]
pub struct Stage {
    pub number: u8,
    pub from: usize,
    pub last: usize,
    pub base: usize,
    pub count: usize,
    pub large: bool,
}

impl Stage {
    // The next level, over the entries of this one.
    pub fn next(self, count: usize) -> Stage
        requires { self.number < 255 }
        ensures { result ≡ next_stage self count }
    {
        Stage {
            number: self.number + 1,
            from: self.base,
            last: count,
            base: count,
            count,
            large: self.large,
        }
    }

    // The same level with what it found so far, for a large index.
    pub fn outgrown(self, count: usize) -> Stage
        ensures { result ≡ outgrown_stage self count }
    {
        Stage {
            count,
            large: true,
            ..self
        }
    }
}

// Writes entry i.
fn append(table: &mut [u8], m: usize, i: usize, key: &[u8], number: u8)
    requires { (m < 1000) × (length key.now ≡ m) × (i * (m + 1) + (m + 1) ≤ length table.old) }
    ensures { table.new ≡ with_entry m i (entry_of key.now number) table.old }
{
    let from = i * (m + 1);
    let end = from + m;
    ground::bytes::copy(key, &mut table[from..end]);
    table[end] = number;
}

// Adds an entry to the end of the first `count`, if its key is of the classes and is not there already. Here and below, what is lent and what changes
// stay parameters: a struct that held the slices would need a clause for what becomes of each.
fn enter(
    table: &mut [u8],
    m: usize,
    count: usize,
    key: &[u8],
    number: u8,
    index: &mut [u32],
    classes: Classes,
) -> Result<usize, Halt>
    requires { KeyLength m × (length key.now ≡ m) × Tracking m count table.old index.old classes }
    ensures { Stretched m number (λ s. s ≡ key.now) table.old count classes (Entered m classes key.now) table.new index.new result }
{
    let entries = Entries {
        bytes: &table[..],
        m,
    };
    let slot = match key_index::find(entries, count, key, &index[..], classes) {
        Found::Here | Found::Outside => return Ok(count),
        Found::Lost => return Err(Halt::Crowded(count)),
        Found::Absent(slot) => slot,
    };
    if count == table.len() / (m + 1) {
        return Err(Halt::Full);
    }
    append(table, m, count, key, number);
    if let Some(p) = slot {
        index[p] = (count + 1) as u32;
    }
    Ok(count + 1)
}

// Enters the cube to which a candidate leads from an entry.
fn child(
    table: &mut [u8],
    job: Job,
    code: MoveCode,
    number: u8,
    count: usize,
    at: usize,
    next: &mut [u8],
    index: &mut [u32],
    classes: Classes,
) -> Result<usize, Halt>
    requires { Candidate code job.moves.now × (length next.old ≡ stickers job.n) × Tracking (stickers job.n) count table.old index.old classes × (at < count) }
    ensures { let n = job.entry.n in Stretched (stickers n) number (LeadsTo n job.entry.moves.now (entry_key (stickers n) table.old at)) table.old count classes (Entered (stickers n) classes (moved_by n code (entry_key (stickers n) table.old at))) table.new index.new result }
{
    let m = 6 * job.n * job.n;
    let turn = generic_cube::read_code(code).unwrap();
    let entries = Entries {
        bytes: &table[..],
        m,
    };
    facelet_moves::compute_permutation(job.n, turn, entries.key(at), next);
    enter(table, m, count, &next[..], number, index, classes)
}

// Enters the cubes to which the candidates lead from an entry.
fn fan(
    table: &mut [u8],
    job: Job,
    number: u8,
    known: usize,
    at: usize,
    next: &mut [u8],
    index: &mut [u32],
    classes: Classes,
) -> Result<usize, Halt>
    requires { (length next.old ≡ stickers job.n) × Tracking (stickers job.n) known table.old index.old classes × (at < known) }
    ensures { let n = job.entry.n in let moves = job.entry.moves.now in Stretched (stickers n) number (LeadsTo n moves (entry_key (stickers n) table.old at)) table.old known classes (Fanned n moves classes (entry_key (stickers n) table.old at)) table.new index.new result }
{
    let mut count = known;
    for &code in job.moves {
        count = child(table, job, code, number, count, at, next, index, classes)?;
    }
    Ok(count)
}

// Enters what is due for a source: the starting cube itself, or the cubes to which the candidates lead from the entry.
fn visit(
    table: &mut [u8],
    job: Job,
    number: u8,
    count: usize,
    at: usize,
    next: &mut [u8],
    index: &mut [u32],
    classes: Classes,
) -> Result<usize, Halt>
    requires { (length next.old ≡ stickers job.n) × Tracking (stickers job.n) count table.old index.old classes × SourcesThere job.n number job.starts.now count (at + 1) }
    ensures { let n = job.entry.n in let starts = job.entry.starts.now in let moves = job.entry.moves.now in Stretched (stickers n) number (Due n starts moves number table.old at) table.old count classes (SourceVisited n starts moves classes number at) table.new index.new result }
{
    if number == 0 {
        let m = 6 * job.n * job.n;
        let start = &job.starts[at * m..at * m + m];
        return enter(table, m, count, start, number, index, classes);
    }
    fan(table, job, number, count, at, next, index, classes)
}

// Does that for the sources of a stage.
pub fn sweep(
    table: &mut [u8],
    job: Job,
    stage: Stage,
    next: &mut [u8],
    index: &mut [u32],
    classes: Classes,
) -> Result<usize, Halt>
    requires { (length next.old ≡ stickers job.n) × Tracking (stickers job.n) stage.count table.old index.old classes × SourcesThere job.n stage.number job.starts.now stage.count stage.last }
    ensures { SweepTold job.entry.n job.entry.starts.now job.entry.moves.now stage classes table.old table.new index.new result }
{
    let mut count = stage.count;
    for at in stage.from..stage.last {
        count = visit(table, job, stage.number, count, at, next, index, classes)?;
    }
    Ok(count)
}

// Files the first `count` entries of the classes anew, unless plainly.
fn refile(
    entries: Entries,
    count: usize,
    index: &mut [u32],
    classes: Classes,
) -> Result<(), RunFull>
    requires { Passing entries.m count entries.bytes.now (length index.old) classes }
    ensures { Refiled entries.entry.m count entries.entry.bytes.now index.new classes result }
{
    if classes.plain {
        return Ok(());
    }
    index.fill(0);
    key_index::file(entries, count, index, classes)
}

// Enters what is due at a stage, of some classes.
fn pass(
    table: &mut [u8],
    job: Job,
    stage: Stage,
    next: &mut [u8],
    index: &mut [u32],
    classes: Classes,
) -> Result<usize, Halt>
    requires { (length next.old ≡ stickers job.n) × Passing (stickers job.n) stage.count table.old (length index.old) classes × SourcesThere job.n stage.number job.starts.now stage.count stage.last }
    ensures { SweepTold job.entry.n job.entry.starts.now job.entry.moves.now stage classes table.old table.new index.new result }
{
    let entries = Entries {
        bytes: &table[..],
        m: 6 * job.n * job.n,
    };
    if let Err(RunFull) = refile(entries, stage.count, index, classes) {
        return Err(Halt::Crowded(stage.count));
    }
    sweep(table, job, stage, next, index, classes)
}

// The classes from `low` on, that many of them; or all of them, plainly, where the width is 0: halving a width ends there, so an
// Option would be made of that number again.
fn classes_from(low: usize, width: usize) -> Classes
    requires { (low < classes) × (width ≤ classes) }
    ensures { (result.low ≡ low) × (low < result.high) × (result.high ≤ classes) × (result.plain ≡ false → 0 < width) }
{
    let plain = width == 0;
    let high = if plain {
        CLASSES
    } else {
        CLASSES.min(low + width)
    };
    Classes { low, high, plain }
}

// Enters all that is due at a stage, class by class, that many at first. Where an index is full fewer are taken, and at last each key is
// looked for plainly. Tells how many entries there are, unless they would not fit.
pub fn level(
    table: &mut [u8],
    job: Job,
    stage: Stage,
    start: usize,
    next: &mut [u8],
    index: &mut [u32],
) -> Option<usize>
    requires { (length next.old ≡ stickers job.n) × Climbing (stickers job.n) stage.count table.old (length index.old) start × SourcesThere job.n stage.number job.starts.now stage.count stage.last }
    ensures { Levelled job.entry.n job.entry.starts.now job.entry.moves.now stage table.old table.new result }
{
    let mut count = stage.count;
    let mut width = start;
    let mut low = 0;
    while low < CLASSES {
        let classes = classes_from(low, width);
        let stage = stage.outgrown(count);
        match pass(table, job, stage, next, index, classes) {
            Ok(c) => {
                count = c;
                low = classes.high;
            }
            Err(Halt::Crowded(c)) => {
                count = c;
                width /= 2;
            }
            Err(Halt::Full) => return None,
        }
    }
    Some(count)
}
