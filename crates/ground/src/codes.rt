// Move codes, and a copy of them.
ghost use Rattle.std.specs.Prelude.{◌≡◌, length};

// The number that stands for a move.
pub type MoveCode = u16;

// The elements of `from`, in order: by hand, as bytes are.
pub fn copy(from: &[MoveCode], to: &mut [MoveCode])
    requires { length to.old ≡ length from.now }
    ensures { to.new ≡ from.now }
{
    for j in 0..to.len() {
        to[j] = from[j];
    }
}
