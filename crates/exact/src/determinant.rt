// The determinants of document 000 at points of the grid, and their signs: turns and normals in 64 bits, sides in two words of 64. Its functions are the
// leaves: what is off the grid was refused before one of them is called.
ghost use Rattle.std.specs.Prelude.{◌≡◌, ◌+◌, ◌<◌, ◌≤◌, length, pos, slice_index_or};
ghost use Rattle.shape.specs.Points.{point_at, points_at};
ghost use Rattle.shape.specs.Signs.{turn, side, row, bracket, sign};
ghost use Rattle.shape.specs.Normals.{minors, dot, normal_of};
ghost use Rattle.wide.specs.Value.{value};
ghost use Rattle.exact.specs.Grid.{limit, Ready};
ghost use Rattle.exact.specs.SignNumbers.{sign_number};
ghost use Rattle.exact.specs.Sizes.{Sized, OnGrid, minor_size};
ghost use Rattle.exact.specs.Vectors.{planar, spatial, differences, components};

use crate::points::{Normal, PlanePoint, Row, SpacePoint};
use wide::Wide;

// The number at a position of a list.
fn number_at(numbers: &[i32], at: usize) -> i64
    requires { at < length numbers.now }
    ensures { result ≡ slice_index_or numbers.now at (pos 0) }
{
    i64::from(numbers[at])
}

// The point that stands in a list from a position on.
pub fn plane_point(numbers: &[i32], at: usize) -> PlanePoint
    requires { (at + 2 ≤ length numbers.now) × OnGrid numbers.now }
    ensures { planar result ≡ point_at 2 at numbers.now }
{
    PlanePoint {
        x: number_at(numbers, at),
        y: number_at(numbers, at + 1),
    }
}

// The same of space: a third number is read. One function for both would have to be told what a point is.
pub fn space_point(numbers: &[i32], at: usize) -> SpacePoint
    requires { (at + 3 ≤ length numbers.now) × OnGrid numbers.now }
    ensures { spatial result ≡ point_at 3 at numbers.now }
{
    SpacePoint {
        x: number_at(numbers, at),
        y: number_at(numbers, at + 1),
        z: number_at(numbers, at + 2),
    }
}

// [a,b,c], definition 2.1. Differences are at most 2^31 in size, their products 2^62. So is what one product takes from the other, though the two
// bounds add up to 2^63, one more than 64 bits hold: `turn_size` in proofs/TurnSize.antt of crate `shape`.
pub fn turn_at(a: PlanePoint, b: PlanePoint, c: PlanePoint) -> i64
    ensures { result ≡ turn (planar a) (planar b) (planar c) }
{
    (a.x - c.x) * (b.y - c.y) - (a.y - c.y) * (b.x - c.x)
}

// [a,b,c] of the three points in a list.
pub fn turn_of(points: &[i32]) -> i64
    requires { Ready 6 points.now }
    ensures { result ≡ bracket (points_at 2 3 0 points.now) }
{
    turn_at(
        plane_point(points, 0),
        plane_point(points, 2),
        plane_point(points, 4),
    )
}

// a - d, a row of the determinant. In doubles `difference_of` of crate `estimates` rounds, and so it stays another function.
pub fn row_of(a: SpacePoint, d: SpacePoint) -> Row
    ensures { differences result ≡ row (spatial a) (spatial d) }
{
    Row {
        x: a.x - d.x,
        y: a.y - d.y,
        z: a.z - d.z,
    }
}

// The 2 by 2 minors of two rows, as a vector. Each product is at most 2^62 in size; that their differences are too, the caller shows of
// rows that have a point in common. In doubles `cross_of` of crate `estimates` rounds, and so it stays another function.
fn minors_of(v: Row, w: Row) -> Normal
    requires { Sized minor_size (minors (differences v) (differences w)) }
    ensures { components result ≡ minors (differences v) (differences w) }
{
    Normal {
        x: v.y * w.z - v.z * w.y,
        y: v.z * w.x - v.x * w.z,
        z: v.x * w.y - v.y * w.x,
    }
}

// The product of a row and a normal: three products of up to 2^93 in size, and their sum. `low_dot_of` of src/levels.rt and `product_of` of crate
// `estimates` are the same in other words of the machine.
fn dot_of(u: Row, n: Normal) -> Wide
    ensures { value result ≡ dot (differences u) (components n) }
{
    let x = wide::scaled(n.x, u.x);
    let y = wide::scaled(n.y, u.y);
    let z = wide::scaled(n.z, u.z);
    wide::add(wide::add(x, y), z)
}

// The normal of the plane of a, b, c: the minors of [a,b,c,X], which are the same for every X. Who asks one plane several times takes them once.
pub fn normal_at(a: SpacePoint, b: SpacePoint, c: SpacePoint) -> Normal
    ensures { components result ≡ normal_of (spatial a) (spatial b) (spatial c) }
{
    minors_of(row_of(a, c), row_of(b, c))
}

// The side of d against the plane through c that has this normal.
pub fn side_over(c: SpacePoint, normal: Normal, d: SpacePoint) -> Wide
    ensures { value result ≡ dot (row (spatial c) (spatial d)) (components normal) }
{
    dot_of(row_of(c, d), normal)
}

// [a,b,c,d], definition 2.2: the determinant whose rows are a - d, b - d, c - d, by the normal of a, b, c.
pub fn side_at(a: SpacePoint, b: SpacePoint, c: SpacePoint, d: SpacePoint) -> Wide
    ensures { value result ≡ side (spatial a) (spatial b) (spatial c) (spatial d) }
{
    side_over(c, normal_at(a, b, c), d)
}

// [a,b,c,d] of the four points in a list.
pub fn side_of(points: &[i32]) -> Wide
    requires { Ready 12 points.now }
    ensures { value result ≡ bracket (points_at 3 4 0 points.now) }
{
    side_at(
        space_point(points, 0),
        space_point(points, 3),
        space_point(points, 6),
        space_point(points, 9),
    )
}

// What a determinant is: below zero, zero or above it.
#[derive(Clone, Copy, PartialEq, Eq, Debug)]
pub enum Sign {
    Negative,
    Zero,
    Positive,
}

// The sign of a turn.
impl From<i64> for Sign {
    ghost from_gives = { λ z s. sign_number s ≡ sign z };

    fn from(z: i64) -> Sign {
        if z < 0 {
            Sign::Negative
        } else if z == 0 {
            Sign::Zero
        } else {
            Sign::Positive
        }
    }
}

// The sign of a side.
impl From<Wide> for Sign {
    ghost from_gives = { λ z s. sign_number s ≡ sign (value z) };

    fn from(z: Wide) -> Sign {
        Sign::from(wide::sign(z))
    }
}
