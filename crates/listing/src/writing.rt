// The pair writer: the pairs that the words of verdicts tell, from the front of a buffer on.
ghost use Rattle.std.specs.Prelude.{◌≤◌, length};
ghost use Rattle.listing.specs.Pairs.{gathered, two_each};
ghost use Rattle.listing.specs.Writing.{word_pairs, told_by, Wrote};

use words::Bits;

// The pairs of a word whose bits are verdicts on i and the triangles from one on. Gives how many numbers it wrote, as all writers here do. The
// place is counted, since it is what is given.
fn put_word(out: &mut [u32], i: u32, from: u32, word: u64) -> usize
    requires { (from ≤ 1024) × (length (two_each (word_pairs i from 64 word)) ≤ length out.old) }
    ensures { Wrote (two_each (word_pairs i from 64 word)) out.old result out.new }
{
    let mut at: usize = 0;
    for z in Bits(word) {
        out[at] = i;
        out[at + 1] = from + z;
        at += 2;
    }
    at
}

// The pairs of all words of two lists.
pub fn put_pairs(out: &mut [u32], words: &[u64]) -> usize
    requires { (length words.now ≤ 16384) × (length (two_each (gathered (told_by words.now) 0 (length words.now))) ≤ length out.old) }
    ensures { Wrote (two_each (gathered (told_by words.now) 0 (length words.now))) out.old result out.new }
{
    let mut at: usize = 0;
    for (k, word) in words.iter().enumerate() {
        at += put_word(&mut out[at..], (k / 16) as u32, (k % 16 * 64) as u32, *word);
    }
    at
}
