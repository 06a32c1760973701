// The search: `ida_star` and `dfs` of generic_solver.rs.
#![tactic(auto)]

ghost use Rattle.std.specs.Prelude.{◌≡◌, [], ◌≤◌, length};
ghost use Rattle.generic_cube.specs.Sizes.{stickers};
ghost use Rattle.generic_cube.specs.Answers.{done};
ghost use Rattle.generic_cube.specs.Code.{move_of, joins};
ghost use Rattle.geometric_moves.specs.Turn.{moved};
ghost use Rattle.search_theory.specs.Search.{bars, dfs};
ghost use Rattle.search_theory.specs.CubeSearch.{cube_task};
ghost use Rattle.ida_star.specs.IdaStar.{reply, search_refusal, IdaStarResult};
ghost use Rattle.ida_star.specs.Inner.{Given, next, TurnRoom, VisitReady, AnswerTold, VisitTold, Starting, PassesTold, Late, late_refusal};

use ground::codes::MoveCode;
use ground::refusals::Refusal;

// What every visit is given: a size, a table and its depth, and the candidates, none of which is refused.
#[derive(Clone, Copy)]
struct Search<'a> {
    n: usize,
    table: &'a [u8],
    depth: usize,
    moves: &'a [MoveCode],
    ghost given: { Given n table.now depth moves.now },
}

// Whether a move may not follow the last of those made: the two would join.
fn path_bars(made: &[MoveCode], code: MoveCode) -> bool
    ensures { result ≡ bars joins made.now code }
{
    match made {
        [] => false,
        [.., last] => generic_cube::do_join(*last, code),
    }
}

// The next level's cube: a copy of this level's, turned where it stands.
fn turn_level(n: usize, code: MoveCode, work: &mut [u8])
    requires { TurnRoom n code (length work.old) }
    ensures { work.new ≡ next (stickers n) (moved n (move_of code)) work.old }
{
    let Ok(m) = generic_cube::read_code(code) else {
        unreachable!()
    };
    let s = 6 * n * n;
    let end = s + s;
    ground::bytes::double(s, &mut work[..end]);
    facelet_moves::apply_move(n, m, &mut work[s..end]);
}

impl<'a> Search<'a> {
    // One visit: the source's `dfs` at this level's cube, with so many moves left. The moves made are the first `len` of the path. Answers how
    // many moves the list has that was found.
    fn dfs(self, work: &mut [u8], path: &mut [MoveCode], len: usize, left: usize) -> Option<usize>
        requires { VisitReady self.n (length work.old) (length path.old) len left }
        ensures { VisitTold (cube_task self.entry.n self.entry.table.now self.entry.depth self.entry.moves.now) (stickers self.entry.n) left len path.old path.new work.old work.new result }
    {
        let s = 6 * self.n * self.n;
        let number = table::number(self.table, s, self.depth, &work[..s]);
        if number == 0 {
            return Some(len);
        }
        if left < number {
            return None;
        }
        for &code in self.moves {
            if path_bars(&path[..len], code) {
                continue;
            }
            turn_level(self.n, code, work);
            path[len] = code;
            if let Some(count) = self.dfs(&mut work[s..], path, len + 1, left - 1) {
                return Some(count);
            }
        }
        None
    }

    // One pass, from the cube, with so many moves left and none made.
    fn pass(self, cube: &[u8], left: usize, work: &mut [u8], path: &mut [MoveCode]) -> Option<usize>
        requires { Starting self.n cube.now left (length work.old) × (left ≤ length path.old) }
        ensures { AnswerTold (dfs (cube_task self.entry.n self.entry.table.now self.entry.depth self.entry.moves.now) left [] cube.now) path.new result }
    {
        let s = 6 * self.n * self.n;
        ground::bytes::copy(cube, &mut work[..s]);
        self.dfs(work, path, 0, left)
    }

    // The passes, under rising limits.
    fn rise(self, cube: &[u8], limit: usize, work: &mut [u8], out: &mut [MoveCode]) -> Option<usize>
        requires starting { Starting self.n cube.now limit (length work.old) }
        requires limit_in_bounds { limit ≤ length out.old }
        ensures { PassesTold (reply (record { n = self.entry.n; cube = cube.now; table = self.entry.table.now; depth = self.entry.depth; candidates = self.entry.moves.now; limit = limit })) out.old out.new result }
    {
        // A path of its own, as memory is fixed: the output is left as it was where no list is found.
        let mut path: [MoveCode; 20] = [0; 20];
        for left in 0..limit + 1 {
            if let Some(count) = self.pass(cube, left, work, &mut path[..limit]) {
                ground::codes::copy(&path[..count], &mut out[..count]);
                return Some(count);
            }
        }
        None
    }
}

// Refusals 8 and 9, of the table and the work area.
#[tactic(auto, unfolding(crate::specs::Inner::late_refusal, ground::specs::Refusals::lowest))]
fn check_late(n: usize, table: &[u8], limit: usize, work: usize) -> Result<(), Refusal>
    requires { Late n limit }
    ensures { result ≡ done (late_refusal n table.now limit work) }
{
    let s = 6 * n * n;
    if !table::is_well_formed(table, s) {
        return Err(Refusal::Table);
    }
    if work < (limit + 1) * s {
        return Err(Refusal::Work);
    }
    Ok(())
}

// The lowest refusal, of what the entry is lent; the work area and the output by their lengths. The parameters are the C function's, as below: a
// struct of them would be built and read at this one place.
fn check_search(
    n: usize,
    cube: &[u8],
    table: &[u8],
    depth: usize,
    moves: &[MoveCode],
    limit: usize,
    work: usize,
    out: usize,
) -> Result<(), Refusal>
    ensures { result ≡ done (search_refusal (record { n = n; cube = cube.now; table = table.now; depth = depth; candidates = moves.now; limit = limit }) work out) }
{
    if !generic_cube::is_small(n) {
        return Err(Refusal::Size);
    }
    if cube.len() != 6 * n * n {
        return Err(Refusal::Length);
    }
    generic_cube::check_moves(n, moves)?;
    if out < limit {
        return Err(Refusal::Room);
    }
    if generic_cube::is_beyond(moves.len(), limit, depth) {
        return Err(Refusal::Bounds);
    }
    check_late(n, table, limit, work)
}

// A shortest allowed list of candidates that leads the cube to a goal of the table, if the table's numbers are admissible: how many moves it has.
// Its parameters are those of the C function.
pub fn ida_star(
    n: usize,
    cube: &[u8],
    table: &[u8],
    depth: usize,
    moves: &[MoveCode],
    limit: usize,
    work: &mut [u8],
    out: &mut [MoveCode],
) -> Result<Option<usize>, Refusal>
    ensures { IdaStarResult (record { n = n; cube = cube.now; table = table.now; depth = depth; candidates = moves.now; limit = limit }) work.old work.new out.old out.new result }
{
    check_search(n, cube, table, depth, moves, limit, work.len(), out.len())?;
    let need = (limit + 1) * (6 * n * n);
    let search = Search {
        n,
        table,
        depth,
        moves,
    };
    let found = search.rise(cube, limit, &mut work[..need], out);
    work[..need].fill(0);
    Ok(found)
}
