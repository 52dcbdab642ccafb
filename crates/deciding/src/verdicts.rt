// The last stage in which a word of candidates is decided: the verdicts on the pairs that are left. The estimate is asked first, and what it can't tell
// is asked exactly.
ghost use Rattle.std.specs.Prelude.{◌≡◌};
ghost use Rattle.kernel.specs.Meeting.{Judges};
ghost use Rattle.deciding.specs.Places.{lined};
ghost use Rattle.deciding.specs.Stages.{Clear, Marked, says_meeting, is_untold, Faced, Numbering, NumberedAt, AllNumbered, Crossing, CrossedAt, Parted, AllAlone, StoodAt, AllStood, JudgedAt, Judged};

use crate::places::{Left, Pairs};
use crate::sorting::sort_places;
use kernel::meet_by_standings;
use space::estimated_crossing;
use words::{Bits, flag_at};

// Pairs whose standings are known by their numbers: that of the first triangle of each place to the plane of the second, and that of the second to the
// plane of the first.
#[derive(Clone, Copy)]
pub struct Stances<'a> {
    pub pairs: Pairs<'a>,
    pub first: &'a [u32; 64],
    pub second: &'a [u32; 64],
}

// Whether the estimate of the last two signs says that a pair meets. The answer is a number, as `SeemToMeet` of crate `kernel` has it, so that it is
// asked without a branch.
fn says_meeting(v: u32) -> bool
    ensures { result ≡ says_meeting v }
{
    v == 1
}

// Whether it can't tell.
fn is_untold(v: u32) -> bool
    ensures { result ≡ is_untold v }
{
    1 < v
}

// What is asked at each place is written out in the loops, as in src/standings.rt.
impl<'a> Stances<'a> {
    // The last two signs of the pair of a place, by the estimate.
    #[inline(always)]
    fn crossing(&self, place: u32) -> u32
        requires { Faced self.now place × NumberedAt self.now place }
        ensures { Crossing self.now place result }
    {
        estimated_crossing(
            self.pairs.first.corners(place),
            self.first[place as usize],
            self.pairs.second.corners(place),
            self.second[place as usize],
        )
    }

    // The verdict on the pair of a place.
    #[inline(always)]
    fn meet(&self, place: u32) -> bool
        requires { Faced self.now place × StoodAt self.now place }
        ensures { Judges 3 3 3 (lined self.now.pairs.first place) (lined self.now.pairs.second place) result }
    {
        meet_by_standings(
            self.pairs.narrow,
            self.pairs.first.corners(place),
            self.first[place as usize],
            self.pairs.second.corners(place),
            self.second[place as usize],
        )
    }

    // Which of the pairs that are asked meet, by the estimate of their last two signs. What it can't tell goes to the others. Nobody reads the numbers, and
    // the compiler keeps none.
    #[inline(always)]
    fn cross_by_estimate(&self, asked: u64, close: u64) -> Left
        requires { Numbering self.now asked × AllNumbered self.now asked × Clear asked close }
        ensures { Parted (CrossedAt self.now) asked close result.kept result.other }
    {
        let mut signs = [0u32; 64];
        let sorted = Left {
            kept: 0,
            other: close,
        };
        let crossing = |z: u32| -> u32
            requires { Faced self.now z × NumberedAt self.now z }
            ensures { Crossing self.entry.now z result }
        { self.crossing(z) };
        sort_places(&mut signs, asked, sorted, crossing, says_meeting, is_untold)
    }

    // The verdicts on the pairs that are asked, beside those that are known. It keeps no number and fills one word, and so has its own loop.
    #[inline(always)]
    fn decide_rest(&self, asked: u64, known: u64) -> u64
        requires { Numbering self.now asked × AllStood self.now asked × Clear asked known }
        ensures { Marked (JudgedAt self.now.pairs) known asked result }
    {
        let mut word = known;
        for z in Bits(asked) {
            word += flag_at(self.meet(z), z);
        }
        word
    }

    // The verdicts on pairs that each have a corner alone, and on close ones: by the estimate of the last signs, and exactly where that can't tell; or where
    // all numbers are small, exactly at once.
    pub fn judge(&self, alone: u64, close: u64) -> u64
        requires { Numbering self.now alone × Numbering self.now close × AllAlone self.now alone × AllStood self.now close × Clear alone close }
        ensures { Judged self.now.pairs alone close result }
    {
        if self.pairs.narrow {
            let word = self.decide_rest(alone, 0);
            return self.decide_rest(close, word);
        }
        let told = self.cross_by_estimate(alone, close);
        self.decide_rest(told.other, told.kept)
    }
}
