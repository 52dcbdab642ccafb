// A segment and a triangle in space, six numbers and nine: the decisions of crate shape's specs/SpaceTest.antt, which crate `wires` puts together. Their
// lists go from crate to crate, and no points: those would be stored, and a processor waits for what was stored a moment ago. All estimates that a
// question needs are asked at once whether they are sure, which spares branches that no processor guesses. Only where one is not, sign by sign is asked.
ghost use Rattle.std.specs.Prelude.{◌≡◌, ◌≤◌, ◌-◌};
ghost use Rattle.shape.specs.Points.{point_at};
ghost use Rattle.shape.specs.SpaceTest.{past_no_edge, segment_in_plane_test};
ghost use Rattle.exact.specs.Grid.{Ready};
ghost use Rattle.exact.specs.Vectors.{spatial, components, normal_in};
ghost use Rattle.space.specs.Spaces.{of_space, of_list, of_segment, ends_over};

use crate::meeting::{
    SpaceTriangle, axis_of, dropped, normal_of, space_triangle, without_coordinate,
};
use crate::standings::is_sure;
use estimates::{estimate_of, is_above, is_below};
use exact::{Normal, SpacePoint, level_over, normal_at, plane_at, rough_of, space_point};
use plane::segment_meets_plane;

// ---- the ends against the triangle's plane

// Three times the level of p over the plane of t, and the level of q. The two stay the digits of one number: see `segment_meets_any` of crate `wires`.
fn levels_of_ends(p: SpacePoint, q: SpacePoint, t: SpaceTriangle) -> u32
    ensures { (result ≡ of_space (ends_over (spatial p) (spatial q)) t) × (result ≤ 8) }
{
    let plane = plane_at(t.p, t.q, t.r);
    let a = rough_of(t.p);
    let x = estimate_of(plane, a, rough_of(p));
    let y = estimate_of(plane, a, rough_of(q));
    if is_sure(x) & is_sure(y) {
        6 * is_above(x) as u32 + 2 * is_above(y) as u32
    } else {
        let n = normal_of(t);
        3 * level_over(t.p, n, plane, p) + level_over(t.p, n, plane, q)
    }
}

// The same of the lists: 0 and 8 where both ends are strictly on one side, 4 where both are on the plane.
pub fn ends_over(first: &[i32], second: &[i32]) -> u32
    requires { Ready 6 first.now × Ready 9 second.now }
    ensures { (result ≡ of_segment ends_over first.now second.now) × (result ≤ 8) }
{
    levels_of_ends(
        space_point(first, 0),
        space_point(first, 3),
        space_triangle(second),
    )
}

// ---- a segment that comes through the plane

// Whether the segment p q from its higher end p passes no edge of the triangle on the outside. The plane through p, q and t.p serves two edges: the sign
// of t.r over it is the opposite of that of t.p over the plane through p, q and t.r. The ends come one by one, since the higher is put first.
fn passes_no_edge(p: SpacePoint, q: SpacePoint, t: SpaceTriangle) -> bool
    ensures { result ≡ of_space (past_no_edge (spatial p) (spatial q)) t }
{
    let f = plane_at(p, q, t.p);
    let g = plane_at(p, q, t.q);
    let a = rough_of(p);
    let x = estimate_of(f, a, rough_of(t.q));
    let y = estimate_of(f, a, rough_of(t.r));
    let z = estimate_of(g, a, rough_of(t.r));
    if is_sure(x) & is_sure(y) & is_sure(z) {
        is_below(x) & is_above(y) & is_below(z)
    } else {
        let m = normal_at(p, q, t.p);
        let n = normal_at(p, q, t.q);
        let i = level_over(p, m, f, t.q);
        let j = level_over(p, m, f, t.r);
        let k = level_over(p, n, g, t.r);
        (i != 2) & (j != 0) & (k != 2)
    }
}

// The same of the lists, where the higher end stands at the place `high`, 0 or 3, and the other at the other place.
pub fn passes(first: &[i32], high: usize, second: &[i32]) -> bool
    requires { Ready 6 first.now × Ready 9 second.now × (high ≤ 3) }
    ensures { result ≡ of_list (past_no_edge (point_at 3 high first.now) (point_at 3 (3 - high) first.now)) second.now }
{
    passes_no_edge(
        space_point(first, high),
        space_point(first, 3 - high),
        space_triangle(second),
    )
}

// ---- a segment in the plane

// Whether a segment in the plane of a triangle that is not flat, whose normal is n, meets it. Who asks has found the normal, to know that.
pub fn segment_meets_in_plane(first: &[i32], second: &[i32], n: Normal) -> bool
    requires { Ready 6 first.now × Ready 9 second.now × (components n ≡ normal_in second.now) }
    ensures { result ≡ of_segment segment_in_plane_test first.now second.now }
{
    let k = axis_of(n).unwrap_or(2); // of a normal that is zero any coordinate serves
    segment_meets_plane(
        without_coordinate(k, space_point(first, 0)),
        without_coordinate(k, space_point(first, 3)),
        dropped(k, space_triangle(second)),
    )
}
