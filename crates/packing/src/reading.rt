// Numbers out of bytes.
ghost use Rattle.std.specs.Prelude.{◌≡◌, ◌+◌, ◌*◌, ◌≤◌, ◌<◌, length, get_or, take, drop};
ghost use Rattle.packing.specs.Reading.{low_first, number_in, numbers_in};

// The byte at `at` as a number.
pub fn byte_at(bytes: &[u8], at: usize) -> usize
    requires { at < length bytes.now }
    ensures { (result ≡ get_or bytes.now at 0) × (result < 256) }
{
    usize::from(bytes[at])
}

// The two bytes from `at` on as a number.
pub fn length_at(bytes: &[u8], at: usize) -> usize
    requires { at + 2 ≤ length bytes.now }
    ensures { result ≡ low_first (take 2 (drop at bytes.now)) }
{
    usize::from(u16::from_le_bytes([bytes[at], bytes[at + 1]]))
}

// The signed number in the four bytes from `at` on.
fn number_at(bytes: &[u8], at: usize) -> i32
    requires { at + 4 ≤ length bytes.now }
    ensures { result ≡ number_in (drop at bytes.now) }
{
    i32::from_le_bytes([bytes[at], bytes[at + 1], bytes[at + 2], bytes[at + 3]])
}

// Reads signed numbers from `at` on, four bytes each, until `numbers` is full. They are counted: what is known is what the first of them are.
pub fn numbers_at(bytes: &[u8], at: usize, numbers: &mut [i32])
    requires { at + 4 * length numbers.old ≤ length bytes.now }
    ensures { numbers.new ≡ numbers_in (length numbers.old) (drop at bytes.now) }
{
    for (k, number) in numbers.iter_mut().enumerate() {
        *number = number_at(bytes, at + 4 * k);
    }
}

// The same of as many numbers as an array has.
pub fn array_at<const N: usize>(bytes: &[u8], at: usize) -> [i32; N]
    requires { at + 4 * N ≤ length bytes.now }
    ensures { result ≡ numbers_in N (drop at bytes.now) }
{
    let mut numbers = [0; N];
    numbers_at(bytes, at, &mut numbers);
    numbers
}
