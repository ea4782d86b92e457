// The line that the program prints: a verdict as text. Texts stand in front of the caller's lists, since there is no heap.
#![tactic(auto)]

ghost use Rattle.std.specs.Prelude.{◌≡◌, ◌++◌, ◌≤◌, length, take, drop};
ghost use Rattle.line.specs.Line.{decimal, line_of};

use itoa::Buffer;

// The last `most` digits of a number, or all where it has fewer, in front; returns how many there are.
pub fn put_decimal(n: u32, most: usize, out: &mut [u8]) -> usize
    requires { most ≤ length out.old }
    ensures value { result ≡ length (decimal most n) }
    ensures out_after { out.new ≡ decimal most n ++ drop result out.old }
{
    let mut buffer = Buffer::new();
    let digits = buffer.format(n).as_bytes();
    put_text(&digits[digits.len().saturating_sub(most)..], out)
}

// A text in front; returns its length.
pub fn put_text(text: &[u8], out: &mut [u8]) -> usize
    requires { length text.now ≤ length out.old }
    ensures value { result ≡ length text.now }
    ensures out_after { out.new ≡ text.now ++ drop result out.old }
{
    let n = text.len();
    out[..n].copy_from_slice(text);
    n
}

// `accepted` for 0, else `refused` and the number, in front of a list of 19 bytes or more; returns the line's length. The number may be any
// of 32 bits, and a Result with a refusal would be one of 24. The last clause follows from the others, for callers that take that part of
// the list. No `impl Display`: its contract leaves open that a `fmt` answers an Err, and this call cannot fail.
pub fn verdict_line(number: u32, out: &mut [u8]) -> usize
    requires { 19 ≤ length out.old }
    ensures value { result ≡ length (line_of number) }
    ensures out_after { out.new ≡ line_of number ++ drop result out.old }
    ensures upper_bound { (result ≤ length out.new) × (result ≡ length (take result out.new)) }
{
    if number == 0 {
        return put_text(b"accepted\n", out);
    }
    let a = put_text(b"refused ", out);
    let b = a + put_decimal(number, 10, &mut out[a..]);
    b + put_text(b"\n", &mut out[b..])
}
