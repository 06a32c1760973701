// The public entries: nothing but calls of the crates below, their answers packed into one number. cubesim_c exports them to C.
#![tactic(auto)]

ghost use Rattle.std.specs.Prelude.{◌≡◌};
ghost use Rattle.generic_cube.specs.Answers.{answer_no, answer_value, answer};
ghost use Rattle.generic_cube.specs.AllMoves.{AllMovesResult};
ghost use Rattle.generic_cube.specs.StickerIndex.{sticker_refusal, sticker_index};
ghost use Rattle.move_lists.specs.Lists.{SimplifyResult, InvertResult};
ghost use Rattle.scramble_writer.specs.Write.{WriteResult};
ghost use Rattle.scramble_parser.specs.Parse.{ParseResult, parsed_no, parsed_value};
ghost use Rattle.algorithm_parser.specs.Groups.{AlgorithmResult};
ghost use Rattle.facelet_cube.specs.Apply.{ApplyMovesResult};
ghost use Rattle.facelet_cube.specs.Cube.{verdict, verdict_no, verdict_value, SolvedResult, SolvedIdsResult, MaskResult};
ghost use Rattle.pruning_table.specs.PruningTable.{PruningTableResult};
ghost use Rattle.ida_star.specs.IdaStar.{IdaStarResult, outcome_value};
ghost use Rattle.cubesim.specs.Pack.{version, Packed};

use crate::packing::Answer;
use ground::codes::MoveCode;

pub mod packing;

// The library's version, a plain number and not a packed answer: it refuses nothing.
pub fn cubesim_version() -> u64
    ensures { result ≡ version }
{
    0 * 65536 + 4 * 256 + 0
}

// The solved cube.
pub fn cubesim_solved(n: usize, cube: &mut [u8]) -> u64
    ensures { Packed answer_no (λ a. 0) (SolvedResult n cube.old cube.new) result }
{
    facelet_cube::cube::solved(n, cube).pack()
}

// The ids of the solved cube.
pub fn cubesim_solved_ids(n: usize, ids: &mut [u16]) -> u64
    ensures { Packed answer_no (λ a. 0) (SolvedIdsResult n ids.old ids.new) result }
{
    facelet_cube::cube::solved_ids(n, ids).pack()
}

// Whether a cube is solved.
pub fn cubesim_is_solved(n: usize, cube: &[u8]) -> u64
    ensures { Packed verdict_no verdict_value (λ a. a ≡ verdict n cube.now) result }
{
    facelet_cube::cube::is_solved(n, cube).pack()
}

// The index of a sticker.
pub fn cubesim_sticker_index(n: usize, face: u8, index: usize) -> u64
    ensures { Packed answer_no answer_value (λ a. a ≡ answer (sticker_refusal n face index) (sticker_index n face index)) result }
{
    generic_cube::stickers::sticker_index(n, face, index).pack()
}

// The letters that a keep slice hides.
pub fn cubesim_mask(n: usize, cube: &mut [u8], ids: &[u16], keep: &[u8]) -> u64
    ensures { Packed answer_no (λ a. 0) (MaskResult n cube.old ids.now keep.now cube.new) result }
{
    facelet_cube::cube::mask(n, cube, ids, keep).pack()
}

// A list of moves on a cube.
pub fn cubesim_apply_moves(n: usize, cube: &mut [u8], work: &mut [u8], moves: &[MoveCode]) -> u64
    ensures { Packed answer_no (λ a. 0) (ApplyMovesResult n cube.old work.old moves.now cube.new work.new) result }
{
    facelet_moves::apply_moves(n, cube, work, moves).pack()
}

// A list of moves on ids.
pub fn cubesim_apply_moves_to_ids(
    n: usize,
    ids: &mut [u16],
    work: &mut [u16],
    moves: &[MoveCode],
) -> u64
    ensures { Packed answer_no (λ a. 0) (ApplyMovesResult n ids.old work.old moves.now ids.new work.new) result }
{
    facelet_moves::apply_moves(n, ids, work, moves).pack()
}

// All moves of a size.
pub fn cubesim_all_moves(n: usize, out: &mut [MoveCode]) -> u64
    ensures { Packed answer_no answer_value (AllMovesResult n out.old out.new) result }
{
    generic_cube::moves::all_moves(n, out).pack()
}

// Reads a scramble.
pub fn cubesim_parse_scramble(n: usize, text: &[u8], out: &mut [MoveCode]) -> u64
    ensures { Packed parsed_no parsed_value (ParseResult n text.now out.old out.new) result }
{
    scramble_parser::parse_scramble(n, text, out).pack()
}

// Reads an algorithm with groups, and expands them.
pub fn cubesim_parse_algorithm(n: usize, text: &[u8], out: &mut [MoveCode]) -> u64
    ensures { Packed parsed_no parsed_value (AlgorithmResult n text.now out.old out.new) result }
{
    algorithm_parser::parse_algorithm(n, text, out).pack()
}

// Writes a list as a scramble.
pub fn cubesim_write_scramble(n: usize, moves: &[MoveCode], out: &mut [u8]) -> u64
    ensures { Packed answer_no answer_value (WriteResult n moves.now out.old out.new) result }
{
    scramble_writer::write_scramble(n, moves, out).pack()
}

// Joins neighbours until none join.
pub fn cubesim_simplify_moves(n: usize, moves: &[MoveCode], out: &mut [MoveCode]) -> u64
    ensures { Packed answer_no answer_value (SimplifyResult n moves.now out.old out.new) result }
{
    move_lists::simplify_moves(n, moves, out).pack()
}

// The list that undoes a list.
pub fn cubesim_invert_moves(n: usize, moves: &[MoveCode], out: &mut [MoveCode]) -> u64
    ensures { Packed answer_no answer_value (InvertResult n moves.now out.old out.new) result }
{
    move_lists::invert_moves(n, moves, out).pack()
}

// A pruning table.
pub fn cubesim_pruning_table(
    n: usize,
    starts: &[u8],
    moves: &[MoveCode],
    depth: usize,
    table: &mut [u8],
) -> u64
    ensures { Packed answer_no answer_value (PruningTableResult n starts.now moves.now depth table.old table.new) result }
{
    pruning_table::pruning_table(n, starts, moves, depth, table).pack()
}

// The search.
pub fn cubesim_ida_star(
    n: usize,
    cube: &[u8],
    table: &[u8],
    depth: usize,
    moves: &[MoveCode],
    limit: usize,
    work: &mut [u8],
    out: &mut [MoveCode],
) -> u64
    ensures { Packed answer_no outcome_value (IdaStarResult (record { n = n; cube = cube.now; table = table.now; depth = depth; candidates = moves.now; limit = limit }) work.old work.new out.old out.new) result }
{
    ida_star::ida_star(n, cube, table, depth, moves, limit, work, out).pack()
}
