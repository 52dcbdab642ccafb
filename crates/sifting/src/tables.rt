// The tables of words (specs/Tables.antt).
ghost use Rattle.std.specs.Prelude.{◌≡◌, ℕ, ◌-◌, ◌/◌, ◌^◌, ◌≤◌, ◌<◌, length, get_or};
ghost use Rattle.sifting.specs.Tables.{SiftsAt, AllSet, Table};

use crate::bits::word_where;
use crate::ends::end_at;
use crate::marks::put_marks;
use words::span_of;

// What sifts the boxes of a list: 16 marks for each of the six ends, and a row of words for each mark and one more. Flat, so that a row's
// number is its place in both.
#[derive(Drop)]
pub struct Sieve {
    pub marks: [i32; 96],
    pub words: [u64; 1_552],
}

impl Sieve {
    // The rows of all marks, on the boxes. The last row is left.
    fn put_rows(&mut self, boxes: &[i32])
        ensures { (self.new.marks ≡ self.old.marks) × ((k : ℕ) → k < 1536 → SiftsAt boxes.now self.new.marks (length boxes.now / 6) self.new.words k) }
    {
        let marks = self.marks;
        let many = boxes.len() / 6;
        for (k, word) in self.words[..1_536].iter_mut().enumerate() {
            let mark = marks[k / 16];
            let from = k % 16 * 64;
            *word = word_where(
                span_of(many, from),
                |t| end_at(boxes, k / 256, from + t) < mark,
            );
        }
    }

    // The last row, on so many boxes.
    fn put_last_row(&mut self, many: usize)
        ensures { (self.new.marks ≡ self.old.marks) × (length self.new.words ≡ 1552) × ((w : ℕ) → w < 16 → AllSet many self.new.words w) × ((k : ℕ) → k < 1536 → get_or self.new.words k 0 ≡ get_or self.old.words k 0) }
    {
        for (w, word) in self.words[1_536..].iter_mut().enumerate() {
            *word = all_of(span_of(many, w * 64));
        }
    }

    // The marks and the rows of the boxes.
    pub fn fill(&mut self, boxes: &[i32])
        requires { (6 ≤ length boxes.now) × (length boxes.now / 6 ≤ 1024) }
        ensures { Table boxes.now self.new.marks (length boxes.now / 6) self.new.words }
    {
        put_marks(&mut self.marks, boxes);
        self.put_rows(boxes);
        self.put_last_row(boxes.len() / 6);
    }
}

// A word whose lowest bits are set, so many of them. A shift by 64 is none: so the whole word is a case of its own.
fn all_of(count: usize) -> u64
    requires { count ≤ 64 }
    ensures { result ≡ 2 ^ count - 1 }
{
    if count < 64 {
        (1 << count) - 1
    } else {
        u64::MAX
    }
}
