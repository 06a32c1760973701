// The public entries as C functions: each calls the function of that name in cubesim, and states its clause again. A slice is a pointer and
// a length for C.
#![tactic(auto)]

ghost use Rattle.std.specs.Prelude.{◌≡◌};
ghost use Rattle.generic_cube.specs.Answers.{answer_no, answer_value, answer};
ghost use Rattle.generic_cube.specs.AllMoves.{AllMovesResult};
ghost use Rattle.generic_cube.specs.StickerIndex.{sticker_refusal, sticker_index};
ghost use Rattle.move_lists.specs.Lists.{SimplifyResult, InvertResult};
ghost use Rattle.scramble_writer.specs.Write.{WriteResult};
ghost use Rattle.scramble_parser.specs.Parse.{ParseResult, parsed_no, parsed_value};
ghost use Rattle.algorithm_parser.specs.Groups.{AlgorithmResult};
ghost use Rattle.facelet_cube.specs.Apply.{ApplyMovesResult};
ghost use Rattle.facelet_cube.specs.Cube.{verdict, verdict_no, verdict_value, SolvedResult, SolvedIdsResult, MaskResult};
ghost use Rattle.pruning_table.specs.PruningTable.{PruningTableResult};
ghost use Rattle.ida_star.specs.IdaStar.{IdaStarResult, outcome_value};
ghost use Rattle.cubesim.specs.Pack.{version, Packed};

use ground::codes::MoveCode;

// The library's version, a plain number and not a packed answer: it refuses nothing.
#[unsafe(no_mangle)]
pub extern "C" fn cubesim_version() -> u64
    ensures { result ≡ version }
{
    cubesim::cubesim_version()
}

// The solved cube.
#[unsafe(no_mangle)]
pub extern "C" fn cubesim_solved(n: usize, cube: &mut [u8]) -> u64
    ensures { Packed answer_no (λ a. 0) (SolvedResult n cube.old cube.new) result }
{
    cubesim::cubesim_solved(n, cube)
}

// The ids of the solved cube.
#[unsafe(no_mangle)]
pub extern "C" fn cubesim_solved_ids(n: usize, ids: &mut [u16]) -> u64
    ensures { Packed answer_no (λ a. 0) (SolvedIdsResult n ids.old ids.new) result }
{
    cubesim::cubesim_solved_ids(n, ids)
}

// Whether a cube is solved.
#[unsafe(no_mangle)]
pub extern "C" fn cubesim_is_solved(n: usize, cube: &[u8]) -> u64
    ensures { Packed verdict_no verdict_value (λ a. a ≡ verdict n cube.now) result }
{
    cubesim::cubesim_is_solved(n, cube)
}

// The index of a sticker.
#[unsafe(no_mangle)]
pub extern "C" fn cubesim_sticker_index(n: usize, face: u8, index: usize) -> u64
    ensures { Packed answer_no answer_value (λ a. a ≡ answer (sticker_refusal n face index) (sticker_index n face index)) result }
{
    cubesim::cubesim_sticker_index(n, face, index)
}

// The letters that a keep slice hides.
#[unsafe(no_mangle)]
pub extern "C" fn cubesim_mask(n: usize, cube: &mut [u8], ids: &[u16], keep: &[u8]) -> u64
    ensures { Packed answer_no (λ a. 0) (MaskResult n cube.old ids.now keep.now cube.new) result }
{
    cubesim::cubesim_mask(n, cube, ids, keep)
}

// A list of moves on a cube.
#[unsafe(no_mangle)]
pub extern "C" fn cubesim_apply_moves(
    n: usize,
    cube: &mut [u8],
    work: &mut [u8],
    moves: &[MoveCode],
) -> u64
    ensures { Packed answer_no (λ a. 0) (ApplyMovesResult n cube.old work.old moves.now cube.new work.new) result }
{
    cubesim::cubesim_apply_moves(n, cube, work, moves)
}

// A list of moves on ids.
#[unsafe(no_mangle)]
pub extern "C" fn cubesim_apply_moves_to_ids(
    n: usize,
    ids: &mut [u16],
    work: &mut [u16],
    moves: &[MoveCode],
) -> u64
    ensures { Packed answer_no (λ a. 0) (ApplyMovesResult n ids.old work.old moves.now ids.new work.new) result }
{
    cubesim::cubesim_apply_moves_to_ids(n, ids, work, moves)
}

// All moves of a size.
#[unsafe(no_mangle)]
pub extern "C" fn cubesim_all_moves(n: usize, out: &mut [MoveCode]) -> u64
    ensures { Packed answer_no answer_value (AllMovesResult n out.old out.new) result }
{
    cubesim::cubesim_all_moves(n, out)
}

// Reads a scramble.
#[unsafe(no_mangle)]
pub extern "C" fn cubesim_parse_scramble(n: usize, text: &[u8], out: &mut [MoveCode]) -> u64
    ensures { Packed parsed_no parsed_value (ParseResult n text.now out.old out.new) result }
{
    cubesim::cubesim_parse_scramble(n, text, out)
}

// Reads an algorithm with groups, and expands them.
#[unsafe(no_mangle)]
pub extern "C" fn cubesim_parse_algorithm(n: usize, text: &[u8], out: &mut [MoveCode]) -> u64
    ensures { Packed parsed_no parsed_value (AlgorithmResult n text.now out.old out.new) result }
{
    cubesim::cubesim_parse_algorithm(n, text, out)
}

// Writes a list as a scramble.
#[unsafe(no_mangle)]
pub extern "C" fn cubesim_write_scramble(n: usize, moves: &[MoveCode], out: &mut [u8]) -> u64
    ensures { Packed answer_no answer_value (WriteResult n moves.now out.old out.new) result }
{
    cubesim::cubesim_write_scramble(n, moves, out)
}

// Joins neighbours until none join.
#[unsafe(no_mangle)]
pub extern "C" fn cubesim_simplify_moves(n: usize, moves: &[MoveCode], out: &mut [MoveCode]) -> u64
    ensures { Packed answer_no answer_value (SimplifyResult n moves.now out.old out.new) result }
{
    cubesim::cubesim_simplify_moves(n, moves, out)
}

// The list that undoes a list.
#[unsafe(no_mangle)]
pub extern "C" fn cubesim_invert_moves(n: usize, moves: &[MoveCode], out: &mut [MoveCode]) -> u64
    ensures { Packed answer_no answer_value (InvertResult n moves.now out.old out.new) result }
{
    cubesim::cubesim_invert_moves(n, moves, out)
}

// A pruning table.
#[unsafe(no_mangle)]
pub extern "C" fn cubesim_pruning_table(
    n: usize,
    starts: &[u8],
    moves: &[MoveCode],
    depth: usize,
    table: &mut [u8],
) -> u64
    ensures { Packed answer_no answer_value (PruningTableResult n starts.now moves.now depth table.old table.new) result }
{
    cubesim::cubesim_pruning_table(n, starts, moves, depth, table)
}

// The search.
#[unsafe(no_mangle)]
pub extern "C" fn cubesim_ida_star(
    n: usize,
    cube: &[u8],
    table: &[u8],
    depth: usize,
    moves: &[MoveCode],
    limit: usize,
    work: &mut [u8],
    out: &mut [MoveCode],
) -> u64
    ensures { Packed answer_no outcome_value (IdaStarResult (record { n = n; cube = cube.now; table = table.now; depth = depth; candidates = moves.now; limit = limit }) work.old work.new out.old out.new) result }
{
    cubesim::cubesim_ida_star(n, cube, table, depth, moves, limit, work, out)
}
