// Whether two shapes that passed their checks have a point in common, a list each. What is promised is the definition, so that most crates
// above know nothing of the tests. Of two triangles in space the test can be asked in stages too, for crate `deciding`: their standings, and
// then the verdict (specs/Standings.antt).
ghost use Rattle.std.specs.Prelude.{◌≡◌, length};
ghost use Rattle.exact.specs.Grid.{Ready, Passed};
ghost use Rattle.exact.specs.Small.{Narrow, BothNarrow};
ghost use Rattle.exact.specs.Vectors.{normal_in};
ghost use Rattle.kernel.specs.Meeting.{Judges};
ghost use Rattle.kernel.specs.Standings.{StandsTo, IsPlane, SeemsTo, Stood};

use exact::{is_narrow, plane_at};
use plane::{plane_triangle, planes_meet};
use space::{crossing, kept_standing, normal_in, normal_of, plane_in, space_triangle};
use wires::{close_meet, segment_meets_any};

// Two triangles in the plane, six numbers each.
pub fn flat_triangles_meet(first: &[i32], second: &[i32]) -> bool
    requires { Passed 2 3 first.now × Passed 2 3 second.now }
    ensures { Judges 2 3 3 first.now second.now result }
{
    planes_meet(plane_triangle(first), plane_triangle(second))
}

// A segment and a triangle in space, six numbers and nine, which may be flat.
pub fn segment_meets_triangle(first: &[i32], second: &[i32]) -> bool
    requires { Ready 6 first.now × Ready 9 second.now }
    ensures { Judges 3 2 3 first.now second.now result }
{
    segment_meets_any(&first[..], &second[..])
}

// ---- two triangles in space, nine numbers each, which may be flat, in stages

// The standing of t to the plane of u, which is known in doubles, by the estimate, where that can tell. From 16 on the number tells nothing, as
// `SeemsTo` has it: what asks it sorts without a branch.
pub fn estimated_standing(t: &[i32], u: &[i32], plane: &[f64]) -> u32
    requires { Ready 9 t.now × Ready 9 u.now × IsPlane u.now plane.now }
    ensures { SeemsTo t.now u.now result }
{
    space::estimated_standing(&t[..], &u[..], plane_in(plane))
}

// The same exactly, where n is the normal of u, too.
pub fn exact_standing(t: &[i32], u: &[i32], n: &[i64], plane: &[f64]) -> u32
    requires { Ready 9 t.now × Ready 9 u.now × (n.now ≡ normal_in u.now) × IsPlane u.now plane.now }
    ensures { StandsTo t.now u.now result }
{
    kept_standing(&t[..], &u[..], &n[..], &plane[..])
}

// The same of small numbers, by low words.
pub fn low_standing(t: &[i32], u: &[i32], n: &[i64]) -> u32
    requires { Ready 9 t.now × Ready 9 u.now × (n.now ≡ normal_in u.now) × Narrow t.now × Narrow u.now }
    ensures { StandsTo t.now u.now result }
{
    space::low_standing(&t[..], &u[..], normal_in(n))
}

// Whether they have a point in common, where s and r are their standings, and neither is beside the other's plane. A list and its standing stay two:
// crate `deciding` has the lists in one row of numbers and the standings in another.
pub fn meet_by_standings(narrow: bool, t: &[i32], s: u32, u: &[i32], r: u32) -> bool
    requires { Ready 9 t.now × Ready 9 u.now × BothNarrow narrow t.now u.now × Stood t.now u.now s r }
    ensures { Judges 3 3 3 t.now u.now result }
{
    if r == 1 {
        close_meet(&u[..], &t[..])
    } else if s == 1 {
        close_meet(&t[..], &u[..])
    } else {
        crossing(narrow, &t[..], s, &u[..], r)
    }
}

// ---- the same at once

// The standing of t to the plane of u: by low words where the normal of u is narrow, else by the estimate, and exactly where that can't tell.
fn standing_to(t: &[i32], u: &[i32]) -> u32
    requires { Ready 9 t.now × Ready 9 u.now }
    ensures { StandsTo t.now u.now result }
{
    let corners = space_triangle(&u[..]);
    let n = normal_of(corners);
    if is_narrow(n.vector()) {
        return space::low_standing(&t[..], &u[..], n);
    }
    let plane = plane_at(corners.p, corners.q, corners.r);
    let seen = space::estimated_standing(&t[..], &u[..], plane);
    if seen < 16 {
        seen
    } else {
        space::exact_standing(&t[..], &u[..], n, plane)
    }
}

// Whether they have a point in common.
pub fn triangles_meet(first: &[i32], second: &[i32]) -> bool
    requires { Ready 9 first.now × Ready 9 second.now }
    ensures { Judges 3 3 3 first.now second.now result }
{
    let s = standing_to(&first[..], &second[..]);
    if s == 0 {
        return false;
    }
    let r = standing_to(&second[..], &first[..]);
    r != 0 && meet_by_standings(false, &first[..], s, &second[..], r)
}

// Writes the normal of a triangle, for those who ask of the same triangle often. Its numbers are stored one by one, and the plane's: `copy_from_slice`
// from an array was tried, and a call on a plane took 7 ns more. `put_normal` and `put_plane` are two: a row of whole numbers and one of doubles, each
// found by another function.
pub fn put_normal(normal: &mut [i64], corners: &[i32])
    requires { (length normal.old ≡ 3) × Ready 9 corners.now }
    ensures { normal.new ≡ normal_in corners.now }
{
    let n = normal_of(space_triangle(corners));
    normal[0] = n.x;
    normal[1] = n.y;
    normal[2] = n.z;
}

// Writes the plane of a triangle in doubles.
pub fn put_plane(plane: &mut [f64], corners: &[i32])
    requires { (length plane.old ≡ 3) × Ready 9 corners.now }
    ensures { IsPlane corners.now plane.new }
{
    let t = space_triangle(corners);
    let p = plane_at(t.p, t.q, t.r);
    plane[0] = p.x;
    plane[1] = p.y;
    plane[2] = p.z;
}
