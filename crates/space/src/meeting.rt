// Triangles of space on the grid, their normals, and two of them in one plane: a decision of crate shape's specs/SpaceTest.antt. What is off the grid was
// refused before.
ghost use Rattle.std.specs.Prelude.{◌≡◌, eqb};
ghost use Rattle.shape.specs.Points.{point_at};
ghost use Rattle.shape.specs.Normals.{axis_of};
ghost use Rattle.shape.specs.SpaceTest.{without, in_plane_test};
ghost use Rattle.exact.specs.Grid.{Ready};
ghost use Rattle.exact.specs.Vectors.{planar, spatial, components};
ghost use Rattle.plane.specs.Planes.{PlaneAt};
ghost use Rattle.space.specs.Spaces.{SpaceAt, IsNormal, named_axis, of_spaces};

use exact::{Normal, PlanePoint, SpacePoint, Triangle, normal_at, space_point};
use plane::{PlaneTriangle, planes_meet};

// A triangle of space.
pub type SpaceTriangle = Triangle<SpacePoint>;

// The triangle that fills a list of nine numbers; see that of six in crate `plane`.
pub fn space_triangle(numbers: &[i32]) -> SpaceTriangle
    requires { Ready 9 numbers.now }
    ensures { SpaceAt (point_at 3 0 numbers.now) (point_at 3 3 numbers.now) (point_at 3 6 numbers.now) result }
{
    Triangle {
        p: space_point(numbers, 0),
        q: space_point(numbers, 3),
        r: space_point(numbers, 6),
    }
}

// The normal of a triangle's plane.
pub fn normal_of(t: SpaceTriangle) -> Normal
    ensures { IsNormal t result }
{
    normal_at(t.p, t.q, t.r)
}

// ---- one plane

// A point without the coordinate k: the two that are kept, in cyclic order. k is a number, as in `without`, which speaks of every k.
pub fn without_coordinate(k: u32, a: SpacePoint) -> PlanePoint
    ensures { planar result ≡ without k (spatial a) }
{
    match k {
        0 => PlanePoint { x: a.y, y: a.z },
        1 => PlanePoint { x: a.z, y: a.x },
        _ => PlanePoint { x: a.x, y: a.y },
    }
}

// A triangle without it.
pub fn dropped(k: u32, t: SpaceTriangle) -> PlaneTriangle
    ensures { PlaneAt (without k (spatial t.p)) (without k (spatial t.q)) (without k (spatial t.r)) result }
{
    Triangle {
        p: without_coordinate(k, t.p),
        q: without_coordinate(k, t.q),
        r: without_coordinate(k, t.r),
    }
}

// A coordinate at which a normal is not zero.
pub fn axis_of(n: Normal) -> Option<u32>
    ensures { result ≡ named_axis (axis_of (components n)) }
{
    if n.z != 0 {
        Some(2)
    } else if n.y != 0 {
        Some(1)
    } else if n.x != 0 {
        Some(0)
    } else {
        None
    }
}

// Whether a normal is zero: exactly then its triangle is flat.
pub fn is_null(n: Normal) -> bool
    ensures { result ≡ eqb (axis_of (components n)) 3 }
{
    axis_of(n).is_none()
}

// Two triangles in the plane of the second, whose normal is n: who asks has found it, to know whether the triangle is flat.
pub fn meet_in_plane(t: SpaceTriangle, u: SpaceTriangle, n: Normal) -> bool
    requires { IsNormal u n }
    ensures { result ≡ of_spaces in_plane_test t u }
{
    let k = axis_of(n).unwrap_or(2); // of a normal that is zero any coordinate serves
    planes_meet(dropped(k, t), dropped(k, u))
}
