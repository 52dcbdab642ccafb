// Words that are built bit by bit.
ghost use Rattle.std.specs.Prelude.{ℕ, ◌^◌, ◌≤◌, ◌<◌};
ghost use Rattle.words.specs.Bits.{bit};

// The word of `count` bits whose bit t tells what a test says of t. The last is asked first, so that the first is the lowest bit.
pub fn word_where<F: Fn(usize) -> bool>(count: usize, test: F) -> u64
    requires few { count ≤ 64 }
    requires callable { (t : ℕ) → t < count → F.pre test t }
    ensures small { result < 2 ^ count }
    ensures told { (t : ℕ) → t < count → F.post test t (bit t result) }
{
    let mut bits: u64 = 0;
    for t in (0..count).rev() {
        bits = 2 * bits + test(t) as u64;
    }
    bits
}
