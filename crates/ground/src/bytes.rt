ghost use Rattle.std.specs.Prelude.{◌≡◌, ◌+◌, ◌≤◌, ◌++◌, length, take};
ghost use Rattle.ground.specs.Inner.{Copying, Doubling};

// By hand, as a cube is short and the library's `copy_from_slice` calls C's `memmove`, a name that the archive for C doesn't ask for.

// Copies a short slice, byte by byte.
fn copy_short(from: &[u8], to: &mut [u8])
    requires { length to.old ≡ length from.now }
    ensures { to.new ≡ from.now }
{
    for j in 0..to.len() {
        to[j] = from[j];
    }
}

// The bytes of a slice of sixteen.
fn block(from: &[u8]) -> [u8; 16]
    requires { length from.now ≡ 16 }
    ensures { result ≡ from.now }
{
    let mut b = [0u8; 16];
    for j in 0..16 {
        b[j] = from[j];
    }
    b
}

// Writes sixteen bytes over such a slice.
fn put_block(to: &mut [u8], b: [u8; 16])
    requires { length to.old ≡ 16 }
    ensures { to.new ≡ b }
{
    for j in 0..16 {
        to[j] = b[j];
    }
}

// Copies sixteen bytes: all are read before any is written, so that the compiler moves them at once.
fn copy_block(from: &[u8], to: &mut [u8], at: usize)
    requires { Copying from.now to.old at × (at + 16 ≤ length to.old) }
    ensures { Copying from.now to.new (at + 16) }
{
    let end = at + 16;
    let b = block(&from[at..end]);
    put_block(&mut to[at..end], b);
}

// The elements of `from`, in order: by blocks of sixteen, the last of which may overlap the one before.
pub fn copy(from: &[u8], to: &mut [u8])
    requires { length to.old ≡ length from.now }
    ensures { to.new ≡ from.now }
{
    if to.len() < 16 {
        copy_short(from, to);
        return;
    }
    let last = to.len() - 16;
    let mut j: usize = 0;
    while j < last {
        copy_block(from, to, j);
        j += 16;
    }
    copy_block(from, to, last);
}

// Copies the first half of a short slice over the second, byte by byte.
fn double_short(s: usize, to: &mut [u8])
    requires { length to.old ≡ s + s }
    ensures { to.new ≡ take s to.old ++ take s to.old }
{
    for j in 0..s {
        to[s + j] = to[j];
    }
}

// Sixteen bytes of the first half, in their place in the second.
fn double_block(s: usize, to: &mut [u8], at: usize)
    requires { Doubling s to.old to.old at × (at + 16 ≤ s) }
    ensures { Doubling s to.old to.new (at + 16) }
{
    let end = at + 16;
    let b = block(&to[at..end]);
    let from = s + at;
    let till = s + end;
    put_block(&mut to[from..till], b);
}

// Copies the first s bytes of twice as many over the others, by blocks as `copy` does.
pub fn double(s: usize, to: &mut [u8])
    requires { length to.old ≡ s + s }
    ensures { to.new ≡ take s to.old ++ take s to.old }
{
    if s < 16 {
        double_short(s, to);
        return;
    }
    let last = s - 16;
    let mut at: usize = 0;
    while at < last {
        double_block(s, to, at);
        at += 16;
    }
    double_block(s, to, last);
}
