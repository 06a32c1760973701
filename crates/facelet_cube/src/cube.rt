ghost use Rattle.std.specs.Prelude.{◌≡◌, length};
ghost use Rattle.ground.specs.Lists.{tabulate};
ghost use Rattle.generic_cube.specs.Answers.{done, DoneWith};
ghost use Rattle.generic_cube.specs.Sizes.{stickers};
ghost use Rattle.facelet_cube.specs.Cube.{cube_refusal, one_byte, is_solved, verdict, large_id, mask_refusal, masked, SolvedResult, SolvedIdsResult, MaskResult};
ghost use Rattle.facelet_cube.specs.Inner.{Whole, Masks};

use crate::Facelet;
use ground::refusals::Refusal;

// The refusal of a slice that is to be a cube.
#[tactic(auto, using(generic_cube::proofs::CodeLaws::sized_bounds, sticker::proofs::PlaceLaws::room), unfolding(crate::specs::Cube::cube_refusal, ground::specs::Refusals::lowest))]
pub(crate) fn check_cube(n: usize, long: usize) -> Result<(), Refusal>
    ensures { result ≡ done (cube_refusal n long) }
{
    if !generic_cube::is_size(n) {
        return Err(Refusal::Size);
    }
    if long != 6 * n * n {
        return Err(Refusal::Length);
    }
    Ok(())
}

fn put_solved<T: Facelet>(n: usize, cube: &mut [T])
    requires { Whole n (length cube.old) }
    ensures { T.numbers cube.new ≡ tabulate (stickers n) (T.shown n) }
{
    for (j, sticker) in cube.iter_mut().enumerate() {
        *sticker = T::shown_at(n, j);
    }
}

// Puts the solved cube into a slice of letters or of ids.
fn solve<T: Facelet>(n: usize, cube: &mut [T]) -> Result<(), Refusal>
    ensures { DoneWith (cube_refusal n (length cube.old)) (tabulate (stickers n) (T.shown n)) (T.numbers cube.old) (T.numbers cube.new) result }
{
    check_cube(n, cube.len())?;
    put_solved(n, cube);
    Ok(())
}

// The solved cube: each sticker shows the letter of its face.
#[tactic(auto, unfolding(crate::specs::Cube::solved_cube))]
pub fn solved(n: usize, cube: &mut [u8]) -> Result<(), Refusal>
    ensures { SolvedResult n cube.old cube.new result }
{
    solve(n, cube)
}

// The ids of the solved cube: 0, 1, 2 and so on.
#[tactic(auto, unfolding(crate::specs::Cube::solved_ids))]
pub fn solved_ids(n: usize, ids: &mut [u16]) -> Result<(), Refusal>
    ensures { SolvedIdsResult n ids.old ids.new result }
{
    solve(n, ids)
}

fn shows_one_byte(face: &[u8]) -> bool
    ensures { result ≡ one_byte face.now }
{
    // Each byte but the first is the one before it: two slices, of which the library compares several bytes at a time.
    match face {
        [] => true,
        [_, rest @ ..] => rest == &face[..rest.len()],
    }
}

// Whether each face shows one byte.
fn all_faces_solved(n: usize, cube: &[u8]) -> bool
    requires { Whole n (length cube.now) }
    ensures { result ≡ is_solved n cube.now }
{
    let side = n * n;
    for k in 0..6 {
        let start = k * side;
        if !shows_one_byte(&cube[start..start + side]) {
            return false;
        }
    }
    true
}

pub fn is_solved(n: usize, cube: &[u8]) -> Result<bool, Refusal>
    ensures { result ≡ verdict n cube.now }
{
    check_cube(n, cube.len())?;
    Ok(all_faces_solved(n, cube))
}

fn has_large_id(count: usize, ids: &[u16]) -> bool
    ensures { result ≡ large_id count ids.now }
{
    ids.iter().any(|&id| count <= id as usize)
}

fn check_mask(n: usize, cube: usize, ids: &[u16], keep: usize) -> Result<(), Refusal>
    ensures { result ≡ done (mask_refusal n cube ids.now keep) }
{
    check_cube(n, cube)?;
    check_cube(n, ids.len())?;
    check_cube(n, keep)?;
    if has_large_id(cube, ids) {
        return Err(Refusal::Index);
    }
    Ok(())
}

fn put_mask(n: usize, cube: &mut [u8], ids: &[u16], keep: &[u8])
    requires { Masks n (length cube.old) ids.now (length keep.now) }
    ensures { cube.new ≡ masked n cube.old ids.now keep.now }
{
    for (j, sticker) in cube.iter_mut().enumerate() {
        if keep[ids[j] as usize] == 0 {
            *sticker = b'X';
        }
    }
}

// Where the keep byte at a sticker's id is 0 its letter becomes X.
pub fn mask(n: usize, cube: &mut [u8], ids: &[u16], keep: &[u8]) -> Result<(), Refusal>
    ensures { MaskResult n cube.old ids.now keep.now cube.new result }
{
    check_mask(n, cube.len(), ids, keep.len())?;
    put_mask(n, cube, ids, keep);
    Ok(())
}
