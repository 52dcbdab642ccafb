// The door of the listing.
ghost use Rattle.door.specs.Doors.{ListWritten};

use telling::{numbers_of, put};

// Every pair of triangles of two lists that have a point in common. Pairs that the caller couldn't be told the count of aren't written.
pub fn zg_list(a: &[i32], b: &[i32], buffer: &mut [u32], start: usize, answer: &mut [u64]) -> u32
    ensures { ListWritten a.now b.now buffer.old start answer.old result buffer.new answer.new }
{
    // as `put` gives it, before anything is written
    if answer.len() < 4 {
        return 1;
    }
    put(answer, numbers_of(listing::list_pairs(a, b, buffer, start)))
}
