// Lists and numbers out of a line of text. Any bytes may stand there, and are read as something: where a number is asked for and no digit
// stands, it is 0. `read_list` alone wants text, and gives all of its numbers or none.
ghost use Rattle.std.specs.Prelude.{◌≤◌, length, IfSome};

// The most numbers that a list of a row has.
pub const LONGEST: usize = 18;

// A list: its first `count` numbers, since there is no heap, and what stands behind it.
#[derive(Clone, Copy)]
pub struct List<'a> {
    pub numbers: [i32; LONGEST],
    pub count: usize,
    pub behind: &'a [u8],
}

// The first place from `from` on that has the mark, or the end.
pub fn until(text: &[u8], from: usize, mark: u8) -> usize
    requires { from ≤ length text.now }
    ensures { (from ≤ result) × (result ≤ length text.now) }
{
    text[from..]
        .iter()
        .position(|byte| *byte == mark)
        .map_or(text.len(), |at| from + at)
}

// What is behind the first byte.
fn behind_first(text: &[u8]) -> &[u8] {
    text.get(1..).unwrap_or(text)
}

// What is behind the mark, where the text begins with it.
fn behind_mark(text: &[u8], mark: u8) -> &[u8] {
    text.strip_prefix(&[mark]).unwrap_or(text)
}

// A number with one digit more; the greatest usize where it would be greater, as only 2^64 - 1 itself is in a row.
fn longer(n: usize, digit: u8) -> usize {
    if n < usize::MAX / 10 {
        (n * 10).saturating_add(usize::from(digit))
    } else {
        usize::MAX
    }
}

// The number of up to 20 digits that a text begins with, and what is behind it.
fn digits(text: &[u8]) -> (usize, &[u8]) {
    let end = text
        .iter()
        .position(|byte| !byte.is_ascii_digit())
        .unwrap_or(text.len());
    let (digits, behind) = text.split_at(end.min(20));
    let mut count = 0;
    for digit in digits {
        count = longer(count, digit.wrapping_sub(b'0'));
    }
    (count, behind)
}

// The number behind the first byte and a space, and what is behind it.
pub fn read_count(text: &[u8]) -> (usize, &[u8]) {
    digits(behind_mark(behind_first(text), b' '))
}

// A number with its sign, kept within 32 bits, and what is behind it.
fn read_coordinate(text: &[u8]) -> (i32, &[u8]) {
    let (count, behind) = digits(behind_mark(text, b'-'));
    let size = u32::try_from(count).unwrap_or(u32::MAX);
    if text.starts_with(b"-") {
        (0i32.saturating_sub_unsigned(size), behind)
    } else {
        (0i32.saturating_add_unsigned(size), behind)
    }
}

// The numbers behind the first byte, a space before each, up to a semicolon or the end; 18 at most.
pub fn take_list(text: &[u8]) -> List<'_>
    ensures { result.count ≤ length result.numbers }
{
    let mut numbers = [0; LONGEST];
    let mut behind = behind_first(text);
    for n in 0..LONGEST {
        let start = behind_mark(behind, b' ');
        if start.is_empty() || start.starts_with(b";") {
            return List {
                numbers,
                count: n,
                behind: start,
            };
        }
        let (coordinate, rest) = read_coordinate(start);
        numbers[n] = coordinate;
        behind = rest;
    }
    List {
        numbers,
        count: LONGEST,
        behind,
    }
}

// The numbers of a list, white space between them, in as much of the room as they need. There is none where the room is too small, or where
// a word is no number.
pub fn read_list<'a>(text: &str, room: &'a mut [i32]) -> Option<&'a [i32]>
    ensures { IfSome result (λ numbers. length numbers.now ≤ length room.old) }
{
    let numbers = room.get_mut(..text.split_whitespace().count())?;
    for (number, word) in numbers.iter_mut().zip(text.split_whitespace()) {
        *number = word.parse().ok()?;
    }
    Some(numbers)
}
