// The levels of points over planes of the grid, by the signs of their sides: 0 below zero, 1 at zero, 2 above it. They stay numbers, since they are the
// digits of the pattern that three of them make. An estimate in doubles tells most of them. A side that it can't tell is small, so that the low word of the
// exact sum is the whole of it.
ghost use Rattle.std.specs.Prelude.{◌≡◌, ◌≤◌, if◌then◌else◌, unsigned_abs};
ghost use Rattle.shape.specs.Signs.{row, sign, digit};
ghost use Rattle.shape.specs.Normals.{dot};
ghost use Rattle.shape.specs.SpaceTest.{level};
ghost use Rattle.shape.specs.Verdicts.{Says};
ghost use Rattle.estimates.specs.Doubles.{rough, plane_of, far_above, far_below};
ghost use Rattle.wide.specs.Low.{HasLowWord};
ghost use Rattle.exact.specs.Sizes.{Sized, narrow_size};
ghost use Rattle.exact.specs.Vectors.{spatial, differences, components, vector, Holds, PlaneThrough};

use crate::determinant::{Sign, normal_at, row_of};
use crate::points::{Normal, Row, SpacePoint, Vector};
use estimates::{Plane, RoughPoint, double_of, estimate_of, is_above, is_below, plane_of};
use wide::{low_product, told_by_low};

// The level that a number tells, by its sign: 0 for -1, 1 for 0, 2 for 1. It is a digit of document 01's sign pattern, and so a number.
pub fn level_of(z: i64) -> u32
    ensures { (result ≡ digit (sign z)) × (result ≤ 2) }
{
    match Sign::from(z) {
        Sign::Negative => 0,
        Sign::Zero => 1,
        Sign::Positive => 2,
    }
}

// ---- by the low word

impl Normal {
    // Its numbers, for those who ask nothing of their size.
    pub fn vector(self) -> Vector
        ensures { vector result ≡ components self }
    {
        Vector {
            x: self.x,
            y: self.y,
            z: self.z,
        }
    }
}

// How large the components of a normal may be so that its product with every row is told by its low word: `narrow_size` of specs/Sizes.antt.
const NARROW_SIZE: u64 = 1_431_655_765;

// Whether a number is so small.
fn is_small(x: i64) -> bool
    ensures { Says result (unsigned_abs x ≤ narrow_size) }
{
    x.unsigned_abs() <= NARROW_SIZE
}

// Whether the components of a normal are. All three are asked, which spares branches that no processor guesses.
pub fn is_narrow(n: Vector) -> bool
    ensures { Says result (Sized narrow_size (vector n)) }
{
    is_small(n.x) & is_small(n.y) & is_small(n.z)
}

// The low word of the product of a row and a normal.
fn low_dot_of(u: Row, n: Vector) -> u64
    ensures { HasLowWord (dot (differences u) (vector n)) result }
{
    let x = low_product(u.x, n.x);
    let y = low_product(u.y, n.y);
    let z = low_product(u.z, n.z);
    x.wrapping_add(y).wrapping_add(z)
}

// The level of d over the plane through c that has this normal, where the low word tells the side. Elsewhere the number tells nothing.
pub fn low_level(c: SpacePoint, normal: Vector, d: SpacePoint) -> u32
    ensures { (Holds (row (spatial c) (spatial d)) (vector normal) → result ≡ digit (sign (dot (row (spatial c) (spatial d)) (vector normal)))) × (result ≤ 2) }
{
    level_of(told_by_low(low_dot_of(row_of(c, d), normal)))
}

// ---- by the estimate first

// A point of the grid as doubles, which is exact.
pub fn rough_of(a: SpacePoint) -> RoughPoint
    ensures { result ≡ rough (spatial a) }
{
    RoughPoint {
        x: double_of(a.x),
        y: double_of(a.y),
        z: double_of(a.z),
    }
}

// The plane of a, b, c in doubles. Who asks one plane several times finds it once.
pub fn plane_at(a: SpacePoint, b: SpacePoint, c: SpacePoint) -> Plane
    ensures { result ≡ plane_of (rough (spatial a)) (rough (spatial b)) (rough (spatial c)) }
{
    plane_of(rough_of(a), rough_of(b), rough_of(c))
}

// The level that an estimate tells, where it is farther from zero than it may be off; at that distance and nearer the one that is given.
fn told_first(e: f64, low: u32) -> u32
    ensures { result ≡ (if far_above e then 2 else (if far_below e then 0 else low)) }
{
    if is_above(e) {
        2
    } else if is_below(e) {
        0
    } else {
        low
    }
}

// The level of d over the plane through a that has this normal, where the plane is held in doubles, too. Where the estimate can't tell the side, that is
// no larger than twice the error, so that the exact sum decides by its low word. Both are found before either is asked, which spares branches that no
// processor guesses. Point, normal and plane stay three: `kept_standing` of crate `space` has the last two from rows of numbers and the first from a
// list.
pub fn level_over(a: SpacePoint, normal: Normal, plane: Plane, d: SpacePoint) -> u32
    requires { PlaneThrough (spatial a) (components normal) plane }
    ensures { (result ≡ digit (sign (dot (row (spatial a) (spatial d)) (components normal)))) × (result ≤ 2) }
{
    let e = estimate_of(plane, rough_of(a), rough_of(d));
    told_first(e, low_level(a, normal.vector(), d))
}

// The level of d over the plane of a, b, c, by the sign of [a,b,c,d]; likewise.
pub fn level_at(a: SpacePoint, b: SpacePoint, c: SpacePoint, d: SpacePoint) -> u32
    ensures { (result ≡ level (spatial a) (spatial b) (spatial c) (spatial d)) × (result ≤ 2) }
{
    level_over(a, normal_at(a, b, c), plane_at(a, b, c), d)
}
