// Tables of states and their numbers: their form, and looking a state up. An entry is a key of m bytes, a cube, and one byte, its
// number; entries stand in rising order of their keys.
#![tactic(auto)]

ghost use Rattle.std.specs.Prelude.{ℕ, ◌≡◌, true, ◌+◌, ◌%◌, ◌≤◌, ◌<◌, ◌↔◌, length, IsTrue};
ghost use Rattle.std.specs.Option.{unwrap_or};
ghost use Rattle.table.specs.Order.{order_of};
ghost use Rattle.table.specs.Entries.{entry_key, entry_number};
ghost use Rattle.table.specs.Table.{entry_count, entries_of, number_for, state_number, well_formed};
ghost use Rattle.table.specs.Inner.{two_of, four_of, word_of, KeyLength, Lookup};

use std::cmp::Ordering;

// Two bytes as a number, the first the highest.
fn two(s: &[u8], j: usize) -> u32
    requires { j + 2 ≤ length s.now }
    ensures { (result ≡ two_of s.now j) × (result < 65536) }
{
    u32::from(u16::from_be_bytes([s[j], s[j + 1]]))
}

// Four bytes as a number.
fn four(s: &[u8], j: usize) -> u32
    requires { j + 4 ≤ length s.now }
    ensures { (result ≡ four_of s.now j) × (result < 4294967296) }
{
    u32::from_be_bytes([s[j], s[j + 1], s[j + 2], s[j + 3]])
}

// Six bytes as a number.
pub fn word(s: &[u8], j: usize) -> usize
    requires { j + 6 ≤ length s.now }
    ensures { (result ≡ word_of s.now j) × (result < 281474976710656) }
{
    65536 * (four(s, j) as usize) + (two(s, j + 4) as usize)
}

// How what no word holds of two keys stands: by std's comparison, which stands apart, as `compare` would be too large to be written into the halving
// of a lookup with it.
#[inline(never)]
#[tactic(auto, unfolding(crate::specs::Order::order_of))]
fn compare_rest(a: &[u8], b: &[u8]) -> Ordering
    ensures { result ≡ order_of a.now b.now }
{
    a.cmp(b)
}

// How two keys of one length stand: by words, which tell keys of a sorted table apart sooner than std's comparison of slices does (with 621,649 entries
// a search that asks std misses the crate's speed), and by that what no word holds.
pub fn compare(a: &[u8], b: &[u8]) -> Ordering
    requires { length a.now ≡ length b.now }
    ensures { result ≡ order_of a.now b.now }
{
    let words = a.len() / 6;
    for i in 0..words {
        let x = word(a, 6 * i);
        let y = word(b, 6 * i);
        if x < y {
            return Ordering::Less;
        }
        if y < x {
            return Ordering::Greater;
        }
    }
    compare_rest(&a[6 * words..], &b[6 * words..])
}

// Entries in a slice: keys of m bytes, each with its number behind it.
#[derive(Clone, Copy)]
pub struct Entries<'a> {
    pub bytes: &'a [u8],
    pub m: usize,
    ghost whole: { KeyLength m },
}

impl<'a> Entries<'a> {
    // How many whole entries there are.
    pub fn count(self) -> usize
        ensures { result ≡ entry_count self.entry.m self.entry.bytes.now }
    {
        self.bytes.len() / (self.m + 1)
    }

    // The key of entry i.
    pub fn key(self, i: usize) -> &'a [u8]
        requires { i < entry_count self.m self.bytes.now }
        ensures { result.now ≡ entry_key self.entry.m self.entry.bytes.now i }
    {
        let from = i * (self.m + 1);
        &self.bytes[from..from + self.m]
    }

    // Whether entry i has that key.
    pub fn has_key(self, i: usize, key: &[u8]) -> bool
        requires { (i < entry_count self.m self.bytes.now) × (length key.now ≡ self.m) }
        ensures { IsTrue result ↔ (entry_key self.entry.m self.entry.bytes.now i ≡ key.now) }
    {
        self.key(i) == key
    }

    // The number of entry i.
    pub fn number(self, i: usize) -> u8
        requires { i < entry_count self.m self.bytes.now }
        ensures { result ≡ entry_number self.entry.m self.entry.bytes.now i }
    {
        self.bytes[i * (self.m + 1) + self.m]
    }

    // The number of the entry with that key, if there is one: of the `span` entries from `low` on, half at a time is left out. By hand, as the bytes
    // are flat as C lends them: std's search wants a slice of entries, and how long one is only m says.
    pub fn find(self, key: &[u8]) -> Option<u8>
        requires { (length key.now ≡ self.m) × (well_formed self.m self.bytes.now ≡ true) }
        ensures { (d : ℕ) → unwrap_or result d ≡ number_for key.now d (entries_of self.entry.m self.entry.bytes.now) }
    {
        let mut low = 0;
        let mut span = self.count();
        while 0 < span {
            let half = span / 2;
            let mid = low + half;
            match compare(self.key(mid), key) {
                Ordering::Equal => return Some(self.number(mid)),
                Ordering::Less => {
                    low = mid + 1;
                    span -= half + 1;
                }
                Ordering::Greater => span = half,
            }
        }
        None
    }
}

// The number of the entry with that key, or depth + 1 where there is none: what its clause `state_number` says, and the search's theorems with it.
pub fn number(table: &[u8], m: usize, depth: usize, key: &[u8]) -> usize
    requires { Lookup m table.now depth key.now }
    ensures { result ≡ state_number m table.now depth key.now }
{
    let entries = Entries { bytes: table, m };
    entries.find(key).map_or(depth + 1, usize::from)
}

// Whether a table is whole entries with strictly rising keys.
pub fn is_well_formed(table: &[u8], m: usize) -> bool
    requires { KeyLength m }
    ensures { result ≡ well_formed m table.now }
{
    if table.len() % (m + 1) != 0 {
        return false;
    }
    let entries = Entries { bytes: table, m };
    for i in 1..entries.count() {
        if !compare(entries.key(i - 1), entries.key(i)).is_lt() {
            return false;
        }
    }
    true
}
