// The lines of the input, and the size on the first.
ghost use Rattle.std.specs.Prelude.{◌≡◌, ◌<◌, MatchOption};
ghost use Rattle.ground.specs.Choice.{position};
ghost use Rattle.cube_response.specs.Inner.{line_feed};
ghost use Rattle.cube_response.specs.Program.{first_line, after_line, size_of};

fn line_feed(input: &[u8]) -> Option<usize>
    ensures { result ≡ line_feed input.now }
{
    input.iter().position(|&b| b == b'\n')
}

// A line ends at its line feed or at the end of input.
fn line_end(input: &[u8]) -> usize
    ensures { result ≡ position 10 input.now }
{
    line_feed(input).unwrap_or(input.len())
}

pub fn first(input: &[u8]) -> &[u8]
    ensures { result.now ≡ first_line input.now }
{
    let end = line_end(input);
    &input[..end]
}

// What stands behind the first line and its line feed.
pub fn rest(input: &[u8]) -> &[u8]
    ensures { result.now ≡ after_line input.now }
{
    let end = line_end(input);
    if end < input.len() {
        return &input[end + 1..];
    }
    &input[end..]
}

// The size that a line writes, if it writes one.
pub fn read_size(one: &[u8]) -> Option<usize>
    ensures { MatchOption result (size_of one.now ≡ 0) (λ n. (0 < n) × (n ≡ size_of one.now)) }
{
    let k = tokens::digits(one);
    if k != one.len() {
        return None;
    }
    if generic_cube::is_outside(1, 2, k) {
        return None;
    }
    if one[0] == b'0' {
        return None;
    }
    let n = tokens::number(one, k);
    if n == 0 {
        return None;
    }
    if 20 < n {
        return None;
    }
    Some(n)
}
