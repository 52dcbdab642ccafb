// The loop of a stage: it asks at each place of a word, the lowest first, and keeps what is answered as a number and as a bit in each of two words.
ghost use Rattle.std.specs.Prelude.{◌≡◌, ℕ, true, ◌<◌, get_or};
ghost use Rattle.words.specs.Bits.{bit};
ghost use Rattle.deciding.specs.Stages.{Clear, Told, Marked};

use crate::places::Left;
use words::{Bits, flag_at};

// The numbers at the places that are asked, beside the pairs that are sorted already: one test tells which are kept, another which go to the others.
#[inline(always)]
pub fn sort_places<A: Fn(u32) -> u32, K: Fn(u32) -> bool, O: Fn(u32) -> bool>(
    standings: &mut [u32; 64],
    asked: u64,
    sorted: Left,
    ask: A,
    is_kept: K,
    is_other: O,
) -> Left
    requires clear { Clear asked sorted.kept × Clear asked sorted.other }
    requires askable { (z : ℕ) → z < 64 → bit z asked ≡ true → A.pre ask z }
    requires tests { K.IsAlwaysCallable is_kept × O.IsAlwaysCallable is_other }
    ensures { Told (A.post ask) asked standings.old standings.new × Marked (λ z b. K.post is_kept (get_or standings.new z 0) b) sorted.kept asked result.kept × Marked (λ z b. O.post is_other (get_or standings.new z 0) b) sorted.other asked result.other }
{
    let mut kept = sorted.kept;
    let mut other = sorted.other;
    for z in Bits(asked) {
        let s = ask(z);
        standings[z as usize] = s;
        kept += flag_at(is_kept(s), z);
        other += flag_at(is_other(s), z);
    }
    Left { kept, other }
}
