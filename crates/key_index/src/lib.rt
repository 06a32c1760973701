// An index of a table's keys: slots that hold an entry's number plus 1, each in the run of slots that its key's hash gives. It tells
// whether a key stands among entries that are in no order. A slot of 0 is empty: memory is fixed, and an `Option` would take twice as much of it.
#![tactic(auto)]

ghost use Rattle.std.specs.Prelude.{◌≡◌, ◌+◌, ◌≤◌, ◌<◌, ◌↔◌, length, IsTrue, OnOk, IfSome};
ghost use Rattle.table.specs.Entries.{entry_key, Present};
ghost use Rattle.key_index.specs.InnerIndex.{run_length, mixed, hash_of, run_start_of, Indexed, Empty, Free};
ghost use Rattle.key_index.specs.Inner.{Probing, Probed, Scanning, Filing, KeyAsked, Sought};

use table::Entries;

// How many classes the keys fall into.
pub const CLASSES: usize = 1024;

// How many slots a run has.
const RUN: usize = 64;

// The classes of keys that an index holds, from `low` up to `high`; or, plainly, that there is no index and the entries are walked.
// `plain` is no mark on the two bounds, which hold either way, so an enum of two structs would say no more.
#[derive(Clone, Copy, Debug, PartialEq, Eq)]
pub struct Classes {
    pub low: usize,
    pub high: usize,
    pub plain: bool,
}

impl Classes {
    // Whether a class is one of them.
    fn contains(self, class: usize) -> bool
        ensures { IsTrue result ↔ ((self.low ≤ class) × (class < self.high)) }
    {
        self.low <= class && class < self.high
    }
}

// What is found of a key: it is an entry's; or it is not, and this is the first empty slot of its run, unless there is no index; or the
// run is full; or it is of another class.
#[derive(Clone, Copy, Debug, PartialEq, Eq)]
pub enum Found {
    Here,
    Absent(Option<usize>),
    Lost,
    Outside,
}

// A run of the index is full.
#[derive(Clone, Copy, Debug, PartialEq, Eq)]
pub struct RunFull;

fn mix(h: usize, x: usize) -> usize
    requires { (h < 4294967296) × (x < 281474976710656) }
    ensures { (result ≡ mixed h x) × (result < 4294967296) }
{
    (h + x % 4294967296 + x / 4294967296 * 40503) % 4294967296 * 2654435761 / 65536 % 4294967296
}

pub fn hash(key: &[u8]) -> usize
    ensures { (result ≡ hash_of key.now) × (result < 4294967296) }
{
    let mut h = 0;
    for k in 0..key.len() / 6 {
        h = mix(h, table::word(key, 6 * k));
    }
    h
}

// Where the run of a hash begins among so many slots.
fn place(h: usize, slots: usize) -> usize
    requires { (h < 4294967296) × (run_length < slots) × (slots < 4294967296) }
    ensures { (result ≡ run_start_of slots h) × (result + run_length ≤ slots) }
{
    h / CLASSES * (slots - RUN) / 4194304
}

// Whether a key stands among the first `count`, walking from the front.
fn scan(entries: Entries, count: usize, key: &[u8]) -> bool
    requires { Scanning entries.m count entries.bytes.now key.now }
    ensures { IsTrue result ↔ Present (entry_key entries.entry.m entries.entry.bytes.now) count key.now }
{
    for i in 0..count {
        if entries.has_key(i, key) {
            return true;
        }
    }
    false
}

// Looks a key up in the run that begins at a slot.
fn probe(entries: Entries, key: &[u8], index: &[u32], at: usize) -> Found
    requires { Probing entries.m entries.bytes.now key.now index.now at }
    ensures { Probed entries.entry.m entries.entry.bytes.now key.now index.now at result }
{
    for p in at..at + RUN {
        let v = index[p] as usize;
        if v == 0 {
            return Found::Absent(Some(p));
        }
        if entries.has_key(v - 1, key) {
            return Found::Here;
        }
    }
    Found::Lost
}

// The first empty slot of that run.
fn free(index: &[u32], at: usize) -> Option<usize>
    requires { at + run_length ≤ length index.now }
    ensures { IfSome result (Free index.now at) }
{
    for p in at..at + RUN {
        if index[p] == 0 {
            return Some(p);
        }
    }
    None
}

// Files entry i after those before it.
fn file_one(entries: Entries, i: usize, index: &mut [u32], classes: Classes) -> Result<(), RunFull>
    requires { Filing entries.m (i + 1) entries.bytes.now × Indexed entries.m i entries.bytes.now index.old classes }
    ensures { OnOk result (Indexed entries.entry.m (i + 1) entries.entry.bytes.now index.new classes) }
{
    let h = hash(entries.key(i));
    if classes.contains(h % CLASSES) {
        let p = free(&index[..], place(h, index.len())).ok_or(RunFull)?;
        index[p] = (i + 1) as u32;
    }
    Ok(())
}

// Files the first `count` entries of those classes in an empty index.
pub fn file(
    entries: Entries,
    count: usize,
    index: &mut [u32],
    classes: Classes,
) -> Result<(), RunFull>
    requires { Filing entries.m count entries.bytes.now × Empty index.old }
    ensures { OnOk result (Indexed entries.entry.m count entries.entry.bytes.now index.new classes) }
{
    for i in 0..count {
        file_one(entries, i, index, classes)?;
    }
    Ok(())
}

// Looks a key of those classes up among the first `count`: by the index, or plainly.
pub fn find(entries: Entries, count: usize, key: &[u8], index: &[u32], classes: Classes) -> Found
    requires { KeyAsked entries.m count entries.bytes.now key.now index.now classes }
    ensures { Sought entries.entry.m count entries.entry.bytes.now key.now index.now classes result }
{
    let h = hash(key);
    if !classes.contains(h % CLASSES) {
        return Found::Outside;
    }
    if classes.plain {
        return if scan(entries, count, key) {
            Found::Here
        } else {
            Found::Absent(None)
        };
    }
    probe(entries, key, index, place(h, index.len()))
}
