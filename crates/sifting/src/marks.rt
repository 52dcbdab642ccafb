// The marks of the tables. Any numbers would do, and nothing is promised of them: they decide only how many pairs are left to be looked at one by
// one. These are taken from where the boxes themselves begin, so that a row of words is set for about as many boxes more as the row before it.
ghost use Rattle.std.specs.Prelude.{◌/◌, ◌≤◌, ◌<◌, length};

use crate::ends::end_at;

// The 16 marks of end e: of 64 boxes, where each fourth begins of those that begin one after the other.
fn marks_of(boxes: &[i32], e: usize) -> [i32; 16]
    requires { (e < 6) × (6 ≤ length boxes.now) × (length boxes.now / 6 ≤ 1024) }
{
    let many = boxes.len() / 6;
    let mut samples = [0i32; 64];
    for (k, sample) in samples.iter_mut().enumerate() {
        *sample = end_at(boxes, e, k * many / 64);
    }
    samples.sort_unstable();
    let mut marks = [0i32; 16];
    for (mark, sample) in marks.iter_mut().zip(samples.iter().skip(3).step_by(4)) {
        *mark = *sample;
    }
    marks
}

// The marks of all six ends.
pub fn put_marks(marks: &mut [i32; 96], boxes: &[i32])
    requires { (6 ≤ length boxes.now) × (length boxes.now / 6 ≤ 1024) }
{
    for e in 0..6 {
        marks[16 * e..16 * e + 16].copy_from_slice(&marks_of(boxes, e));
    }
}
