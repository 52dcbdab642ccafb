// The rows of a table that serve a box, and the boxes that they leave.
ghost use Rattle.std.specs.Prelude.{ℕ, ◌≤◌, ◌<◌, ◌≡◌, length, get_or};
ghost use Rattle.sifting.specs.Tables.{RowFor, RowsFor, Joined};

use crate::ends::reach_at;
use crate::tables::Sieve;

impl Sieve {
    // The row of a mark of end e that a number is below, or the last. The marks rise, so that as many are passed as are not above the number; the next
    // is looked at, so that nothing has to be known of their order. Without an exit the compiler looks at several marks at once: `filter`
    // and `count` were tried, and took half as long again.
    fn row_of(&self, e: usize, number: i32) -> usize
        requires { e < 6 }
        ensures { RowFor self.now.marks e number result }
    {
        let marks = &self.marks[16 * e..16 * e + 16];
        let mut passed = 0;
        for mark in marks {
            passed += (*mark <= number) as usize;
        }
        if passed < 16 && number < marks[passed] {
            16 * e + passed
        } else {
            96
        }
    }

    // The rows that serve a box, one for each end.
    pub fn rows_of(&self, bounds: &[i32]) -> [usize; 6]
        requires { length bounds.now ≡ 6 }
        ensures { RowsFor self.now.marks bounds.now result }
    {
        let mut rows = [96usize; 6];
        for (e, row) in rows.iter_mut().enumerate() {
            *row = self.row_of(e, reach_at(bounds, e));
        }
        rows
    }

    // Word w of six rows and the last, joined: the boxes that all of them leave.
    pub fn joined_of(&self, rows: [usize; 6], w: usize) -> u64
        requires { (w < 16) × ((e : ℕ) → e < 6 → get_or rows e 0 ≤ 96) }
        ensures { Joined self.now.words rows w result }
    {
        let mut some = self.words[1_536 + w];
        for row in rows {
            some &= self.words[16 * row + w];
        }
        some
    }
}
