// Moves of a cube of letters or of ids: facelet_cube/moves.rs.
#![tactic(auto)]

ghost use Rattle.std.specs.Prelude.{◌≡◌, length, ◌-◌, ◌/◌};
ghost use Rattle.geometric_moves.specs.Turn.{moved, run};
ghost use Rattle.facelet_cube.specs.Apply.{ApplyMovesResult};
ghost use Rattle.facelet_cube.specs.Inner.{Runnable, Turnable};
ghost use Rattle.facelet_lanes.specs.InnerLanes.{prior, line_cycled, ring_turned, face_turned, layers_turned, LineFits, RingFits, LayersFit};

use facelet_cube::Facelet;
use facelet_lanes::Ring;
use generic_cube::Move;
use ground::codes::MoveCode;
use ground::refusals::Refusal;

// Of the values one, two and three lanes back, the one that t quarters bring.
#[tactic(auto, unfolding(facelet_lanes::specs::InnerLanes::prior))]
fn prior<T: Facelet>(t: usize, one: T, two: T, three: T) -> T
    ensures { T.number result ≡ prior t (T.number one) (T.number two) (T.number three) }
{
    match t {
        1 => one,
        2 => two,
        _ => three,
    }
}

// Line p of a ring: each place gets what stood t lanes back.
fn cycle_line<T: Facelet>(t: usize, p: usize, count: usize, ring: Ring, cube: &mut [T])
    requires { LineFits p count ring (length cube.old) }
    ensures { T.numbers cube.new ≡ line_cycled t p ring count (T.numbers cube.old) }
{
    for q in 0..count {
        let i = ring.a.place(p, q);
        let j = ring.b.place(p, q);
        let k = ring.c.place(p, q);
        let e = ring.d.place(p, q);
        let x = cube[i];
        let y = cube[j];
        let z = cube[k];
        let w = cube[e];
        cube[i] = prior(t, w, z, y);
        cube[j] = prior(t, x, w, z);
        cube[k] = prior(t, y, x, w);
        cube[e] = prior(t, z, y, x);
    }
}

// `lines` lines of a ring from `first` on, `count` places of each. Size and turn go beside the cube here and below: a struct that borrows the
// cube with them would be no plainer, as each contract names all three.
fn turn_ring<T: Facelet>(
    n: usize,
    t: usize,
    ring: usize,
    first: usize,
    lines: usize,
    count: usize,
    cube: &mut [T],
)
    requires { RingFits n ring first lines count (length cube.old) }
    ensures { T.numbers cube.new ≡ ring_turned n t ring count first lines (T.numbers cube.old) }
{
    let lanes = facelet_lanes::ring_of(n, ring);
    for p in 0..lines {
        cycle_line(t, first + p, count, lanes, cube);
    }
}

// A whole face in quarters, where it is to turn: a test of the caller's that the definition `face_turned` takes as well.
fn turn_face<T: Facelet>(n: usize, t: usize, ring: usize, turns: bool, cube: &mut [T])
    requires { RingFits n ring 0 (n - n / 2) (n / 2) (length cube.old) }
    ensures { T.numbers cube.new ≡ face_turned n t ring turns (T.numbers cube.old) }
{
    if turns {
        let half = n / 2;
        turn_ring(n, t, ring, 0, n - half, half, cube);
    }
}

// `count` layers from `first` on, counted from a face: their lines on its sides, the face where they hold the first layer, and the face
// opposite where they hold the last.
fn turn_layers<T: Facelet>(
    n: usize,
    t: usize,
    face: usize,
    first: usize,
    count: usize,
    cube: &mut [T],
)
    requires { LayersFit n face first count (length cube.old) }
    ensures { T.numbers cube.new ≡ layers_turned n t face first count (T.numbers cube.old) }
{
    let ring = 3 * face;
    turn_ring(n, t, ring, first, count, n, cube);
    turn_face(n, t, ring + 1, first == 0, cube);
    turn_face(n, t, ring + 2, first + count == n, cube);
}

// One move, in place: its layers start at its face.
pub fn apply_move<T: Facelet>(n: usize, m: Move, cube: &mut [T])
    requires { Turnable n m (length cube.old) (length cube.old) }
    ensures { T.numbers cube.new ≡ moved n m (T.numbers cube.old) }
{
    let face = facelet_lanes::face_number(m.kind);
    let count = geometric_moves::layers_of(n, m);
    turn_layers(n, m.turn, face, 0, count, cube);
}

// The cube after a move.
pub fn compute_permutation<T: Facelet>(n: usize, m: Move, old: &[T], new: &mut [T])
    requires { Turnable n m (length old.now) (length new.old) }
    ensures { T.numbers new.new ≡ moved n m (T.numbers old.now) }
{
    T::copy(old, new);
    apply_move(n, m, new);
}

// Every move of a list that was checked.
fn run_moves<T: Facelet>(n: usize, cube: &mut [T], moves: &[MoveCode])
    requires { Runnable n (length cube.old) (length cube.old) moves.now }
    ensures { T.numbers cube.new ≡ run n moves.now (T.numbers cube.old) }
{
    for &code in moves {
        let Ok(m) = generic_cube::read_code(code) else {
            unreachable!()
        };
        apply_move(n, m, cube);
    }
}

// A list of moves on a cube, with a work area of the same length. A single move is a list of one.
pub fn apply_moves<T: Facelet>(
    n: usize,
    cube: &mut [T],
    work: &mut [T],
    moves: &[MoveCode],
) -> Result<(), Refusal>
    ensures { ApplyMovesResult n (T.numbers cube.old) (T.numbers work.old) moves.now (T.numbers cube.new) (T.numbers work.new) result }
{
    facelet_cube::check_apply(n, cube.len(), work.len(), moves)?;
    run_moves(n, cube, moves);
    work.fill(T::blank());
    Ok(())
}
