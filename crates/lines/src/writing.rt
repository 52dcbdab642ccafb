// Text into a buffer, from a place on. Each function gives the place after its text. The buffer is the caller's, since there is no heap to grow a
// text on.
ghost use Rattle.std.specs.Prelude.{◌≡◌, ◌+◌, ◌≤◌, ◌<◌, length};
ghost use Rattle.lines.specs.Laid.{laid};
ghost use Rattle.lines.specs.Lines.{decimal, line_of};

// Some text.
fn put(out: &mut [u8], at: usize, text: &[u8]) -> usize
    requires { at + length text.now ≤ length out.old }
    ensures { (result ≡ at + length text.now) × (out.new ≡ laid out.old at text.now) }
{
    let end = at + text.len();
    out[at..end].copy_from_slice(text);
    end
}

// A number below 10,000.
#[tactic(auto, using(crate::proofs::LineLaws::digits_decimal))]
fn put_number(out: &mut [u8], at: usize, n: u32) -> usize
    requires { (n < 10000) × (at + length (decimal n) ≤ length out.old) }
    ensures { (result ≡ at + length (decimal n)) × (out.new ≡ laid out.old at (decimal n)) }
{
    let mut text = [0u8; 20];
    let k = io::decimal(u64::from(n), &mut text);
    put(out, at, &text[..k])
}

// A line takes eight bytes at most.
#[tactic(auto, using(crate::proofs::LineLaws::short_decimal, crate::proofs::LineLaws::shorter_decimal, crate::proofs::LineLaws::length_laid))]
pub fn put_line(out: &mut [u8], at: usize, number: u32, count: u32) -> usize
    requires { (number < 100) × (count < 10000) × (at + 8 ≤ length out.old) }
    ensures { (result ≡ at + length (line_of number count)) × (out.new ≡ laid out.old at (line_of number count)) }
{
    let a = put_number(out, at, number);
    let b = put(out, a, b" ");
    let c = put_number(out, b, count);
    put(out, c, b"\n")
}
