// The first two stages in which a word of candidates is decided: how each of two triangles stands to the other's plane. Each is a loop over the bits that
// are set, and leaves fewer: no branch depends on what the triangles are like, which no processor guesses. The estimate is asked first, and what it
// can't tell is asked exactly; or of small numbers all by their low words. `asked` changes from stage to stage, and with it what is known: so it is asked of
// each.
ghost use Rattle.std.specs.Prelude.{◌≡◌, true, false, get_or};
ghost use Rattle.deciding.specs.Places.{Paired, Posed};
ghost use Rattle.deciding.specs.Stages.{Clear, StandsAt, SeemsAt, Told, Marked, Parted, SortedAt, seems_alone, is_open, is_alone, is_within};

use crate::places::{Left, Pairs};
use crate::sorting::sort_places;
use kernel::{estimated_standing, exact_standing, low_standing};

// Whether a standing is told by the estimate, and a corner is alone. A standing is a number, as `SeemsTo` and `StandsTo` of crate `kernel` have it, so that it
// is asked without a branch.
fn seems_alone(s: u32) -> bool
    ensures { result ≡ seems_alone s }
{
    (1 < s) & (s < 16)
}

// Whether it has to be asked exactly.
fn is_open(s: u32) -> bool
    ensures { result ≡ is_open s }
{
    (s == 1) | (15 < s)
}

// Whether a corner is alone, of a standing that is exact.
fn is_alone(s: u32) -> bool
    ensures { result ≡ is_alone s }
{
    1 < s
}

// Whether the triangle is within the plane.
fn is_within(s: u32) -> bool
    ensures { result ≡ is_within s }
{
    s == 1
}

// The standings at the places that are asked, by the estimate.
#[inline(always)]
fn stand_by_estimate(pairs: &Pairs, standings: &mut [u32; 64], asked: u64) -> Left
    requires { Posed pairs.now asked × (pairs.now.narrow ≡ false) }
    ensures { Told (SeemsAt pairs.now) asked standings.old standings.new × Marked (λ z b. b ≡ seems_alone (get_or standings.new z 0)) 0 asked result.kept × Marked (λ z b. b ≡ is_open (get_or standings.new z 0)) 0 asked result.other }
{
    let estimated = |z: u32| -> u32
        requires { Paired pairs.now z × (pairs.now.narrow ≡ false) }
        ensures { SeemsAt pairs.entry.now z result }
    {
        estimated_standing(
            pairs.first.corners(z),
            pairs.second.corners(z),
            pairs.second.plane(z),
        )
    };
    sort_places(
        standings,
        asked,
        Left { kept: 0, other: 0 },
        estimated,
        seems_alone,
        is_open,
    )
}

// The standings at the places that are asked, exactly: pairs with a corner alone go to those that are kept, and pairs in one plane to the others.
// What `stand_low` asks is all that differs: each closure's clauses say of which pairs.
#[inline(always)]
fn stand_exactly(pairs: &Pairs, standings: &mut [u32; 64], asked: u64, sorted: Left) -> Left
    requires { Posed pairs.now asked × (pairs.now.narrow ≡ false) × Clear asked sorted.kept × Clear asked sorted.other }
    ensures { Told (StandsAt pairs.now) asked standings.old standings.new × Marked (λ z b. b ≡ is_alone (get_or standings.new z 0)) sorted.kept asked result.kept × Marked (λ z b. b ≡ is_within (get_or standings.new z 0)) sorted.other asked result.other }
{
    let exact = |z: u32| -> u32
        requires { Paired pairs.now z × (pairs.now.narrow ≡ false) }
        ensures { StandsAt pairs.entry.now z result }
    {
        exact_standing(
            pairs.first.corners(z),
            pairs.second.corners(z),
            pairs.second.normal(z),
            pairs.second.plane(z),
        )
    };
    sort_places(standings, asked, sorted, exact, is_alone, is_within)
}

// What `stand_exactly` gives, where all numbers are small: the estimate would not be worth asking. What is asked is all that differs: each
// closure's clauses say of which pairs.
#[inline(always)]
fn stand_low(pairs: &Pairs, standings: &mut [u32; 64], asked: u64, sorted: Left) -> Left
    requires { Posed pairs.now asked × (pairs.now.narrow ≡ true) × Clear asked sorted.kept × Clear asked sorted.other }
    ensures { Told (StandsAt pairs.now) asked standings.old standings.new × Marked (λ z b. b ≡ is_alone (get_or standings.new z 0)) sorted.kept asked result.kept × Marked (λ z b. b ≡ is_within (get_or standings.new z 0)) sorted.other asked result.other }
{
    let low = |z: u32| -> u32
        requires { Paired pairs.now z × (pairs.now.narrow ≡ true) }
        ensures { StandsAt pairs.entry.now z result }
    {
        low_standing(
            pairs.first.corners(z),
            pairs.second.corners(z),
            pairs.second.normal(z),
        )
    };
    sort_places(standings, asked, sorted, low, is_alone, is_within)
}

// How the first triangle of each pair stands to the plane of the second, beside the pairs that are close already. Pairs with a corner alone are kept, and
// pairs in one plane go to the others; what is neither is apart. It is written out where it is called, like all that it calls here: the compiler then has a
// loop for each stage, in which it knows what stays the same, and tells flags apart without a branch.
#[inline(always)]
pub fn stand(pairs: &Pairs, standings: &mut [u32; 64], asked: u64, close: u64) -> Left
    requires { Posed pairs.now asked × Clear asked close }
    ensures { Parted (SortedAt pairs.now standings.new) asked close result.kept result.other }
{
    if pairs.narrow {
        let sorted = Left {
            kept: 0,
            other: close,
        };
        return stand_low(pairs, standings, asked, sorted);
    }
    let seen = stand_by_estimate(pairs, standings, asked);
    let sorted = Left {
        kept: seen.kept,
        other: close,
    };
    stand_exactly(pairs, standings, seen.other, sorted)
}
