// The builder of tables: PruningTable::new of generic_solver.rs. It climbs to the depth, and one sort ends it.
#![tactic(auto)]

ghost use Rattle.std.specs.Prelude.{◌≡◌, length};
ghost use Rattle.generic_cube.specs.Sizes.{stickers};
ghost use Rattle.generic_cube.specs.Answers.{done};
ghost use Rattle.pruning_table.specs.PruningTable.{early_refusal, PruningTableResult};
ghost use Rattle.pruning_table.specs.Inner.{Finished};

use ground::codes::MoveCode;
use ground::refusals::Refusal;
use table_level::{Job, Stage};

// The table: what was found, sorted. Tells how many entries there are, unless they would not fit.
fn build(table: &mut [u8], job: Job, next: &mut [u8]) -> Option<usize>
    requires { length next.old ≡ stickers job.n }
    ensures { Finished job.entry.n job.entry.starts.now job.entry.moves.now job.entry.depth table.old table.new result }
{
    let m = 6 * job.n * job.n;
    let first = Stage {
        number: 0,
        from: 0,
        last: job.starts.len() / m,
        base: 0,
        count: 0,
        large: false,
    };
    let count = table_climb::grow(table, job, first, next)?;
    entry_sort::sort(&mut table[..count * (m + 1)], m);
    Some(count)
}

// The same, with room for the largest cube that has tables, 6·7·7 stickers: a rule of the project, fixed memory.
fn fill(table: &mut [u8], job: Job) -> Option<usize>
    ensures { Finished job.entry.n job.entry.starts.now job.entry.moves.now job.entry.depth table.old table.new result }
{
    let mut next = [0u8; 294];
    build(table, job, &mut next[..6 * job.n * job.n])
}

// What is refused before building.
fn check_early(n: usize, starts: usize, moves: &[MoveCode], depth: usize) -> Result<(), Refusal>
    ensures { result ≡ done (early_refusal n starts moves.now depth) }
{
    if !generic_cube::is_small(n) {
        return Err(Refusal::Size);
    }
    if starts % (6 * n * n) != 0 {
        return Err(Refusal::Length);
    }
    generic_cube::check_moves(n, moves)?;
    if generic_cube::is_beyond(moves.len(), 0, depth) {
        return Err(Refusal::Bounds);
    }
    Ok(())
}

// The table of the states reachable from the starting cubes by at most `depth` candidates, each with the least such count.
pub fn pruning_table(
    n: usize,
    starts: &[u8],
    moves: &[MoveCode],
    depth: usize,
    table: &mut [u8],
) -> Result<usize, Refusal>
    ensures { PruningTableResult n starts.now moves.now depth table.old table.new result }
{
    check_early(n, starts.len(), moves, depth)?;
    let job = Job {
        n,
        starts,
        moves,
        depth: depth as u8,
    };
    let Some(count) = fill(table, job) else {
        table.fill(0);
        return Err(Refusal::Room);
    };
    Ok(count)
}
