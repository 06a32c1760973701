// The call of a record, and what is held to it.
use crate::record::{self, Entry, Fault, NUMBER_ROOM, ROOM, Record};

// What the program `cube` answers to an input: its count as the value; 1 where the output is shorter than any response may be.
fn respond(input: &[u8], out: &mut [u8]) -> u64 {
    if out.len() < 2401 {
        return 1;
    }
    let count = cube_response::response::respond(input, out);
    if count < 65536 {
        return 256 * (count as u64);
    }
    1
}

// What an entry is lent: three slices of bytes and three of numbers.
#[derive(Drop)]
pub struct Lent<'a> {
    pub a: &'a mut [u8],
    pub b: &'a mut [u8],
    pub c: &'a mut [u8],
    pub x: &'a mut [u16],
    pub y: &'a mut [u16],
    pub z: &'a mut [u16],
}

// Calls the entry of a record with what it takes of three numbers and six slices.
fn call(record: Record, lent: &mut Lent) -> u64 {
    let n = record.n;
    let p = record.p;
    let q = record.q;
    let a = &mut *lent.a;
    let b = &mut *lent.b;
    let c = &mut *lent.c;
    let x = &mut *lent.x;
    let y = &mut *lent.y;
    let z = &mut *lent.z;
    match record.entry {
        Entry::Solved => cubesim::cubesim_solved(n, a),
        Entry::SolvedIds => cubesim::cubesim_solved_ids(n, x),
        Entry::IsSolved => cubesim::cubesim_is_solved(n, a),
        Entry::StickerIndex => cubesim::cubesim_sticker_index(
            n,
            a.first().copied().unwrap_or(0),
            p,
        ),
        Entry::Mask => cubesim::cubesim_mask(n, a, x, b),
        Entry::ApplyMoves => cubesim::cubesim_apply_moves(n, a, b, x),
        Entry::ApplyMovesToIds => cubesim::cubesim_apply_moves_to_ids(n, x, y, z),
        Entry::AllMoves => cubesim::cubesim_all_moves(n, x),
        Entry::ParseScramble => cubesim::cubesim_parse_scramble(n, a, x),
        Entry::WriteScramble => cubesim::cubesim_write_scramble(n, x, a),
        Entry::SimplifyMoves => cubesim::cubesim_simplify_moves(n, x, y),
        Entry::InvertMoves => cubesim::cubesim_invert_moves(n, x, y),
        Entry::PruningTable => cubesim::cubesim_pruning_table(n, a, x, p, b),
        Entry::IdaStar => cubesim::cubesim_ida_star(n, a, b, p, x, q, c, y),
        Entry::ParseAlgorithm => cubesim::cubesim_parse_algorithm(n, a, x),
        Entry::Program => respond(a, b),
    }
}

// Makes the call of a record, and holds the answer and the six slices to it.
fn call_and_hold(record: Record, lent: &mut Lent) -> Result<(), Fault> {
    let got = call(record, lent);
    let [a, b, c, x, y, z] = record.after;
    let bytes = record::holds(a, ROOM, &lent.a[..])?
        & record::holds(b, ROOM, &lent.b[..])?
        & record::holds(c, ROOM, &lent.c[..])?;
    let numbers = record::holds(x, NUMBER_ROOM, &lent.x[..])?
        & record::holds(y, NUMBER_ROOM, &lent.y[..])?
        & record::holds(z, NUMBER_ROOM, &lent.z[..])?;
    if got == record.answer && bytes && numbers {
        return Ok(());
    }
    Err(Fault::Differs)
}

// Reads a record and makes its call, with slices that are parts of those in `rooms`.
pub fn replay(line: &[u8], rooms: &mut Lent) -> Result<(), Fault> {
    let record = Record::read(line).ok_or(Fault::NoRecord)?;
    let [a, b, c, x, y, z] = record.before;
    let mut lent = Lent {
        a: record::lend(a, &mut rooms.a[..])?,
        b: record::lend(b, &mut rooms.b[..])?,
        c: record::lend(c, &mut rooms.c[..])?,
        x: record::lend(x, &mut rooms.x[..])?,
        y: record::lend(y, &mut rooms.y[..])?,
        z: record::lend(z, &mut rooms.z[..])?,
    };
    call_and_hold(record, &mut lent)
}

// The moves at both types in which a cube is stored. They are tested here, as a test writes and aborts, which a library is not to reach.
#[cfg(test)]
mod tests {
    use facelet_moves::{apply_moves, compute_permutation};
    use generic_cube::Move;

    // U: the first rows of the sides move on, R to F, F to L, L to B, B to R.
    #[test]
    fn turns_letters(rt: HostRuntime) {
        let mut cube = [0u8; 54];
        let mut work = [7u8; 54];
        assert_eq!(rt; facelet_cube::cube::solved(3, &mut cube), Ok(()));
        assert_eq!(rt; apply_moves(3, &mut cube, &mut work, &[1]), Ok(()));
        assert_eq!(rt;
            cube,
            *b"UUUUUUUUUBBBRRRRRRRRRFFFFFFDDDDDDDDDFFFLLLLLLLLLBBBBBB"
        );
        assert_eq!(rt; work, [0; 54]);
    }

    #[test]
    fn turns_ids(rt: HostRuntime) {
        let mut ids = [0u16; 24];
        let mut next = [0u16; 24];
        let u = Move {
            kind: 0,
            width: 0,
            turn: 1,
        };
        assert_eq!(rt; facelet_cube::cube::solved_ids(2, &mut ids), Ok(()));
        compute_permutation(2, u, &ids, &mut next);
        assert_eq!(rt;
            next,
            [
                2, 0, 3, 1, 20, 21, 6, 7, 4, 5, 10, 11, 12, 13, 14, 15, 8, 9, 18, 19, 16, 17, 22,
                23
            ],
        );
    }
}
