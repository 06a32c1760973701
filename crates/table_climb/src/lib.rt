// Climbing from level to level: with a small index, then with a large one, which is used class by class once it cannot hold all entries.
#![tactic(auto)]

ghost use Rattle.std.specs.Prelude.{◌≡◌, ◌≤◌, ◌<◌, length, OnOk};
ghost use Rattle.generic_cube.specs.Sizes.{stickers};
ghost use Rattle.table.specs.Table.{entry_count};
ghost use Rattle.key_index.specs.InnerIndex.{run_length, classes, Empty};
ghost use Rattle.table_level.specs.Inner.{Tracking};
ghost use Rattle.table_climb.specs.Inner.{Staged, RiseTold, Raised};

use key_index::{CLASSES, Classes, RunFull};
use table::Entries;
use table_level::{Halt, Job, Stage};

// How many slots the small and the large index have. A table of few entries asks no more of the stack than the small one.
const FEW: usize = 2048;

const MANY: usize = 262144;

// Why climbing with one index comes to no end: it was outgrown at a stage, or the entries would not fit.
#[derive(Clone, Copy, Debug, PartialEq, Eq)]
pub enum Stop {
    Outgrown(Stage),
    Full,
}

// How many passes more than one a level is likely to take with so many slots, of which a quarter is to stay empty: the entries grow as
// they did at the level before, or at first by all candidates. The counts are 0 where nothing stood before: they are counts, no marks.
fn more_passes(stage: Stage, moves: usize, slots: usize) -> usize
    requires { moves ≤ 255 }
{
    let room = slots / 4 * 3;
    let base = stage.base;
    let from = stage.from;
    if base == 0 {
        return stage.last / (room + 1);
    }
    if from == 0 {
        return stage.count / (room / (moves + 1) + 1);
    }
    stage.count / (room / ((base - 1) / from + 1) + 1)
}

// How many classes to take at once, a width of `table_level`'s; none where the numbers of the entries that fit would not fit a slot.
fn guess(stage: Stage, moves: usize, slots: usize, fits: usize) -> usize
    requires { moves ≤ 255 }
    ensures { (result ≤ classes) × ((result ≡ 0 → ⊥) → fits < 4294967295) }
{
    if 4294967295 <= fits {
        return 0;
    }
    let more = more_passes(stage, moves, slots);
    CLASSES / (more.min(CLASSES - 1) + 1)
}

// Files the first `count` entries of all classes in an empty index, if their numbers fit its slots.
fn file_all(entries: Entries, count: usize, index: &mut [u32], all: Classes) -> Result<(), RunFull>
    requires { (count ≤ entry_count entries.m entries.bytes.now) × Empty index.old }
    ensures { OnOk result (Tracking entries.entry.m count entries.entry.bytes.now index.new all) }
{
    if 4294967295 <= entries.count() {
        return Err(RunFull);
    }
    key_index::file(entries, count, index, all)
}

// Level by level up to the depth with one index, which holds all entries and is kept from level to level, until it is outgrown. The stage, which
// is also what is told where it is outgrown, knows its level: a `for` would count that a second time. So below.
fn climb(
    table: &mut [u8],
    job: Job,
    first: Stage,
    next: &mut [u8],
    index: &mut [u32],
) -> Result<usize, Stop>
    requires { (length next.old ≡ stickers job.n) × Staged job.n job.starts.now job.moves.now job.depth table.old first × Empty index.old }
    ensures { RiseTold job.entry.n job.entry.starts.now job.entry.moves.now job.entry.depth table.old first.count table.new result }
{
    let all = Classes {
        low: 0,
        high: CLASSES,
        plain: false,
    };
    let entries = Entries {
        bytes: &table[..],
        m: 6 * job.n * job.n,
    };
    if let Err(RunFull) = file_all(entries, first.count, index, all) {
        return Err(Stop::Outgrown(first.outgrown(first.count)));
    }
    let mut stage = first;
    while stage.number <= job.depth {
        if more_passes(stage, job.moves.len(), index.len()) != 0 {
            return Err(Stop::Outgrown(stage.outgrown(stage.count)));
        }
        stage = match table_level::sweep(table, job, stage, next, index, all) {
            Ok(count) => stage.next(count),
            Err(Halt::Crowded(count)) => return Err(Stop::Outgrown(stage.outgrown(count))),
            Err(Halt::Full) => return Err(Stop::Full),
        };
    }
    Ok(stage.count)
}

// The same to the end, each level by classes. Tells how many entries there are, unless they would not fit.
fn climb_by_classes(
    table: &mut [u8],
    job: Job,
    first: Stage,
    next: &mut [u8],
    index: &mut [u32],
) -> Option<usize>
    requires { (length next.old ≡ stickers job.n) × Staged job.n job.starts.now job.moves.now job.depth table.old first × (run_length < length index.old) × (length index.old < 4294967296) }
    ensures { Raised job.entry.n job.entry.starts.now job.entry.moves.now job.entry.depth table.old first.count table.new result }
{
    let fits = table.len() / (6 * job.n * job.n + 1);
    let mut stage = first;
    while stage.number <= job.depth {
        let width = guess(stage, job.moves.len(), index.len(), fits);
        let count = table_level::level(table, job, stage, width, next, index)?;
        stage = stage.next(count);
    }
    Some(stage.count)
}

// Climbs with a small index.
fn climb_few(table: &mut [u8], job: Job, stage: Stage, next: &mut [u8]) -> Result<usize, Stop>
    requires { (length next.old ≡ stickers job.n) × Staged job.n job.starts.now job.moves.now job.depth table.old stage }
    ensures { RiseTold job.entry.n job.entry.starts.now job.entry.moves.now job.entry.depth table.old stage.count table.new result }
{
    let mut index = [0u32; FEW];
    climb(table, job, stage, next, &mut index)
}

// Climbs to the end with a large index: with all entries in it as long as they fit, then by classes.
fn climb_many(table: &mut [u8], job: Job, stage: Stage, next: &mut [u8]) -> Option<usize>
    requires { (length next.old ≡ stickers job.n) × Staged job.n job.starts.now job.moves.now job.depth table.old stage }
    ensures { Raised job.entry.n job.entry.starts.now job.entry.moves.now job.entry.depth table.old stage.count table.new result }
{
    let mut index = [0u32; MANY];
    match climb(table, job, stage, next, &mut index) {
        Ok(count) => Some(count),
        Err(Stop::Outgrown(stage)) => climb_by_classes(table, job, stage, next, &mut index),
        Err(Stop::Full) => None,
    }
}

// Climbs with the small index, and goes on with the large one where that is outgrown. It calls itself for that, so that the compiler
// keeps the large index out of the frame of a table of few entries. Tells how many entries there are, unless they would not fit.
pub fn grow(table: &mut [u8], job: Job, stage: Stage, next: &mut [u8]) -> Option<usize>
    requires { (length next.old ≡ stickers job.n) × Staged job.n job.starts.now job.moves.now job.depth table.old stage }
    ensures { Raised job.entry.n job.entry.starts.now job.entry.moves.now job.entry.depth table.old stage.count table.new result }
{
    if stage.large {
        return climb_many(table, job, stage, next);
    }
    match climb_few(table, job, stage, next) {
        Ok(count) => Some(count),
        Err(Stop::Outgrown(stage)) => grow(table, job, stage, next),
        Err(Stop::Full) => None,
    }
}
