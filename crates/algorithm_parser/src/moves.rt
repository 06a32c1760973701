// Moves put into an output as far as there is room, and counted no further than a cap, which is more than the room.
ghost use Rattle.std.specs.Prelude.{◌≡◌, List, [], ◌∷◌, ◌+◌, ◌-◌, ◌≤◌, ◌<◌, min, length};
ghost use Rattle.move_lists.specs.Lists.{inverse};
ghost use Rattle.algorithm_parser.specs.Algorithm.{copies};
ghost use Rattle.algorithm_parser.specs.Inner.{Filled, Placed, Behind, Appended, Transferred};

use ground::codes::MoveCode;

// The place behind `size` moves, no further than the cap.
fn plus(j: usize, size: usize, cap: usize) -> usize
    requires { j ≤ cap }
    ensures { result ≡ min (j + size) cap }
{
    if size < cap - j { j + size } else { cap }
}

// One move at the place j.
pub fn put(out: &mut [MoveCode], j: usize, code: MoveCode, cap: usize) -> usize
    requires { Placed cap out.old j }
    ensures { Filled cap out.old j (code ∷ []) out.new result }
{
    if j < out.len() {
        out[j] = code;
        return j + 1;
    }
    plus(j, 1, cap)
}

// Writes the inverse of the `size` codes at j, the last one first, to `to`, which lies behind them.
fn invert_part(out: &mut [MoveCode], j: usize, to: usize, size: usize)
    requires { (j + size ≤ to) × (to + size ≤ length out.old) }
    ensures { Transferred inverse out.old j to size out.new }
{
    for k in 0..size {
        out[to + k] = move_lists::inverse_code(out[j + (size - 1 - k)]);
    }
}

// The moves from j to mid once more, from `to` on.
fn put_part(out: &mut [MoveCode], j: usize, mid: usize, to: usize, cap: usize) -> usize
    requires { Behind cap out.old j mid to }
    ensures { Appended cap (λ vs. vs) out.old j mid to out.new result }
{
    let size = mid - j;
    let next = plus(to, size, cap);
    if next <= out.len() {
        let (front, back) = out.split_at_mut(to);
        ground::codes::copy(&front[j..mid], &mut back[..size]);
    }
    next
}

// The inverse of the moves from j to mid, from `to` on. One function with put_part over a closure of the lent output would be no plainer: its
// contract would have to say what each call of the closure asks and leaves.
pub fn put_inverse(out: &mut [MoveCode], j: usize, mid: usize, to: usize, cap: usize) -> usize
    requires { Behind cap out.old j mid to }
    ensures { Appended cap inverse out.old j mid to out.new result }
{
    let size = mid - j;
    let next = plus(to, size, cap);
    if next <= out.len() {
        invert_part(out, j, to, size);
    }
    next
}

// The moves from j to mid, `times` in all: once less behind them.
pub fn put_copies(out: &mut [MoveCode], j: usize, mid: usize, times: u8, cap: usize) -> usize
    requires { (Behind cap out.old j mid mid) × (0 < times) }
    ensures { Appended cap (copies (times - 1)) out.old j mid mid out.new result }
{
    let mut end = mid;
    for _c in 1..times {
        end = put_part(out, j, mid, end, cap);
    }
    end
}
