// A size on line one, a scramble on line two: writes the letters of the solved cube after the scramble, or why there are none.
#![tactic(auto)]

ghost use Rattle.std.specs.Prelude.{◌≤◌, length, IfOk};

use std::io::{self, Read};

// Reads until the buffer is full or the input ends: how many bytes it put at the front.
fn read_full<R: Read>(input: &mut R, buf: &mut [u8]) -> io::Result<usize>
    ensures { IfOk result (λ n. n ≤ length buf.new) }
{
    let mut done = 0;
    while done < buf.len() {
        let n = input.read(&mut buf[done..])?;
        if n == 0 {
            return Ok(done);
        }
        done += n;
    }
    Ok(done)
}

// Two lines of 4,096 bytes with their line feeds decide the response; what lies behind them is not read.
fn main(rt: HostRuntime) -> io::Result<()> {
    let mut input = [0u8; 8194];
    let n = read_full(&mut rt.reader(), &mut input)?;
    let mut out = [0u8; 2401];
    let k = cube_response::response::respond(&input[..n], &mut out);
    rt.write_all(&out[..k])
}
