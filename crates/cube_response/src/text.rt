// Text put into the output, at a place. `respond` can't fail, so it writes into what it is lent, and no text is grown.
ghost use Rattle.std.specs.Prelude.{◌++◌, ◌+◌, ◌≤◌, length};
ghost use Rattle.ground.specs.Inner.{Put};
ghost use Rattle.cube_response.specs.Program.{decimal, refused_text, at_text, feed, Responds};
ghost use Rattle.cube_response.specs.Inner.{PutNumber};

pub fn put(out: &mut [u8], at: usize, text: &[u8]) -> usize
    requires { at + length text.now ≤ length out.old }
    ensures { Put out.old at text.now out.new result }
{
    let end = at + text.len();
    out[at..end].copy_from_slice(text);
    end
}

// The digits of a number.
pub fn put_decimal(out: &mut [u8], at: usize, x: usize) -> usize
    requires { at + 20 ≤ length out.old }
    ensures { PutNumber out.old at x out.new result }
{
    let mut digits = [0u8; 20];
    let k = io::decimal(x as u64, &mut digits);
    put(out, at, &digits[..k])
}

// A refused scramble: the number, and the place in line two.
pub fn put_refusal(number: u8, place: usize, out: &mut [u8]) -> usize
    requires { 53 ≤ length out.old }
    ensures { Responds (refused_text ++ (decimal number ++ (at_text ++ (decimal place ++ feed)))) out.old out.new result }
{
    let a = put(out, 0, b"refused ");
    let b = put_decimal(out, a, number as usize);
    let c = put(out, b, b" at ");
    let d = put_decimal(out, c, place);
    put(out, d, b"\n")
}
