// The candidates: for each box of one list the boxes of the other that it may reach, a bit each. A pair of triangles that has no bit is apart.
ghost use Rattle.std.specs.Prelude.{◌≡◌, true, ℕ, ◌+◌, ◌*◌, ◌/◌, ◌≤◌, ◌<◌, length, get_or};
ghost use Rattle.boxes.specs.Boxes.{six};
ghost use Rattle.sifting.specs.Ends.{Reaches};
ghost use Rattle.sifting.specs.Tables.{Joined, CandidatesBelow};

use crate::bits::word_where;
use crate::tables::Sieve;
use boxes::boxes_apart;
use words::span_of;

// So many pairs are worth a table. Of fewer each is looked at.
const WORTH: usize = 32_768;

// Whether a box reaches box j of a list.
fn reaches(bounds: &[i32], boxes: &[i32], j: usize) -> bool
    requires { (length bounds.now ≡ 6) × (6 * j + 6 ≤ length boxes.now) }
    ensures { Reaches bounds.now (six j boxes.now) → result ≡ true }
{
    let box_at = 6 * j;
    !boxes_apart(bounds, &boxes[box_at..box_at + 6])
}

// The candidates of the first boxes among the others, asked one by one.
fn put_one_by_one(words: &mut [u64], bounds: &[i32], boxes: &[i32])
    requires { (length bounds.now / 6 ≤ 1024) × (length bounds.now / 6 * 16 ≤ length words.old) }
    ensures { CandidatesBelow bounds.now boxes.now (length boxes.now / 6) words.new (length bounds.now / 6 * 16) }
{
    let many = boxes.len() / 6;
    for (k, word) in words[..bounds.len() / 6 * 16].iter_mut().enumerate() {
        let box_at = 6 * (k / 16);
        let first = &bounds[box_at..box_at + 6];
        let from = k % 16 * 64;
        *word = word_where(span_of(many, from), |t| reaches(first, boxes, from + t));
    }
}

// The candidates of a box, by the rows that serve it.
fn put_row(words: &mut [u64], sieve: &Sieve, rows: [usize; 6])
    requires { (length words.old ≡ 16) × ((e : ℕ) → e < 6 → get_or rows e 0 ≤ 96) }
    ensures { (w : ℕ) → w < 16 → Joined sieve.now.words rows w (get_or words.new w 0) }
{
    for (w, word) in words.iter_mut().enumerate() {
        *word = sieve.joined_of(rows, w);
    }
}

// The candidates of the first boxes among the others, by a table. The rows are counted: of what `chunks_exact_mut` lends only the length is known once it is
// written.
fn put_by_table(words: &mut [u64], bounds: &[i32], boxes: &[i32])
    requires { (length bounds.now / 6 ≤ 1024) × (6 ≤ length boxes.now) × (length boxes.now / 6 ≤ 1024) × (length bounds.now / 6 * 16 ≤ length words.old) }
    ensures { CandidatesBelow bounds.now boxes.now (length boxes.now / 6) words.new (length bounds.now / 6 * 16) }
{
    let mut sieve = Sieve {
        marks: [0; 96],
        words: [0; 1_552],
    };
    sieve.fill(boxes);
    for i in 0..bounds.len() / 6 {
        let box_at = 6 * i;
        let rows = sieve.rows_of(&bounds[box_at..box_at + 6]);
        let at = i * 16;
        put_row(&mut words[at..at + 16], &sieve, rows);
    }
}

// The candidates of the first boxes among the others, a row of 16 words for each of the first.
pub fn put_candidates(words: &mut [u64], bounds: &[i32], boxes: &[i32])
    requires { (length bounds.now / 6 ≤ 1024) × (length boxes.now / 6 ≤ 1024) × (length bounds.now / 6 * 16 ≤ length words.old) }
    ensures { CandidatesBelow bounds.now boxes.now (length boxes.now / 6) words.new (length bounds.now / 6 * 16) }
{
    if bounds.len() / 6 * (boxes.len() / 6) < WORTH {
        put_one_by_one(words, bounds, boxes);
    } else {
        put_by_table(words, bounds, boxes);
    }
}
