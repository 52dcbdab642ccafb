// The public call: the input is checked, the pairs are decided, and what there is room for is written.
ghost use Rattle.std.specs.Prelude.{◌≡◌, ◌≤◌, length};
ghost use Rattle.checks.specs.Answers.{fine};
ghost use Rattle.listing.specs.Pairs.{gathered};
ghost use Rattle.listing.specs.Rules.{input_checks, ListRule};
ghost use Rattle.listing.specs.Told.{told_list};
ghost use Rattle.listing.specs.Writing.{told_by, Found};

use crate::input::input_checked;
use crate::writing::put_pairs;
use checks::{Reason, Refusal};
use deciding::decide_lists;

// Writes the pairs that the words tell, or gives refusal 5 where there is too little room for them.
fn list_found(
    words: &[u64],
    found: usize,
    buffer: &mut [u32],
    start: usize,
) -> Result<usize, Refusal>
    requires { (length words.now ≤ 16384) × (found ≡ length (gathered (told_by words.now) 0 (length words.now))) × (start ≤ length buffer.old) }
    ensures { Found words.now (length words.now) buffer.old start (told_list result) buffer.new }
{
    if buffer.len() - start < 2 * found {
        return Err(Refusal::new(Reason::TooLittleRoom, 0, found));
    }
    put_pairs(&mut buffer[start..], words);
    Ok(found)
}

// The listing of two lists that passed the checks.
fn list_sound(a: &[i32], b: &[i32], buffer: &mut [u32], start: usize) -> Result<usize, Refusal>
    requires { input_checks a.now b.now buffer.old start ≡ fine }
    ensures { ListRule a.now b.now buffer.old start (told_list result) buffer.new }
{
    let mut room = [0u64; 16_384];
    let words = &mut room[..a.len() / 9 * 16];
    let found = decide_lists(a, b, words);
    list_found(words, found as usize, buffer, start)
}

// Lists every pair of triangles of the two lists that have a point in common into the buffer, from the start on.
pub fn list_pairs(a: &[i32], b: &[i32], buffer: &mut [u32], start: usize) -> Result<usize, Refusal>
    ensures { ListRule a.now b.now buffer.old start (told_list result) buffer.new }
{
    input_checked(a, b, start, buffer.len())?;
    list_sound(a, b, buffer, start)
}
