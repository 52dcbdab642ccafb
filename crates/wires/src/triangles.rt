// Triangles of space that may be flat, which their normals tell: against a segment, and against each other. Six numbers for a segment, nine for a triangle.
// The lists are lent on by `[..]`, here and in crate `kernel`: lent on as they came, where they lie would be copied first, and a
// processor waits for a copy of what was stored a moment ago.
ghost use Rattle.std.specs.Prelude.{◌≡◌};
ghost use Rattle.shape.specs.WireTest.{segment_triangle_test, close_test};
ghost use Rattle.exact.specs.Grid.{Ready};
ghost use Rattle.space.specs.Spaces.{of_segment, of_lists};
ghost use Rattle.wires.specs.Wires.{edges_meet, level_test, edge_meets};

use crate::segments::{Segment, segments_meet};
use exact::space_point;
use space::{
    ends_over, is_null, meet_in_plane, normal_of, passes, segment_meets_in_plane, space_triangle,
};

// ---- a segment and a triangle

// Whether one of two edges of a triangle, which are the whole of it where it is flat, meets a segment.
fn edge_meets_segment(first: &[i32], second: &[i32]) -> bool
    requires { Ready 6 first.now × Ready 9 second.now }
    ensures { result ≡ of_segment edges_meet first.now second.now }
{
    let s = Segment {
        p: space_point(first, 0),
        q: space_point(first, 3),
    };
    let t = space_triangle(second);
    segments_meet(s, Segment { p: t.p, q: t.q }) || segments_meet(s, Segment { p: t.q, q: t.r })
}

// Whether a segment in the plane of a triangle meets it. Every point is on the plane of a flat one, whose normal is zero.
fn level_segment_meets(first: &[i32], second: &[i32]) -> bool
    requires { Ready 6 first.now × Ready 9 second.now }
    ensures { result ≡ of_segment level_test first.now second.now }
{
    let n = normal_of(space_triangle(second));
    if is_null(n) {
        edge_meets_segment(&first[..], &second[..])
    } else {
        segment_meets_in_plane(&first[..], &second[..], n)
    }
}

// Whether a segment and a triangle have a point in common. That both ends are strictly on one side is one question, since no processor guesses which
// side it is; and for the same reason the place of the higher end is computed. So the two levels stay the digits of one number.
pub fn segment_meets_any(first: &[i32], second: &[i32]) -> bool
    requires { Ready 6 first.now × Ready 9 second.now }
    ensures { result ≡ of_segment segment_triangle_test first.now second.now }
{
    let ends = ends_over(&first[..], &second[..]);
    if ends % 8 == 0 {
        false
    } else if ends == 4 {
        level_segment_meets(&first[..], &second[..])
    } else {
        let high = 3 * (ends / 3 < ends % 3) as usize;
        passes(&first[..], high, &second[..])
    }
}

// ---- two triangles

// Whether one of two edges of the triangle t meets the triangle u.
fn edge_meets(t: &[i32], u: &[i32]) -> bool
    requires { Ready 9 t.now × Ready 9 u.now }
    ensures { result ≡ of_lists edge_meets t.now u.now }
{
    segment_meets_any(&t[0..6], &u[..]) || segment_meets_any(&t[3..9], &u[..])
}

// Whether two triangles have a point in common, where the first is in the plane of the second, or one is flat. Nothing asks for flat ones before the
// standings do.
pub fn close_meet(t: &[i32], u: &[i32]) -> bool
    requires { Ready 9 t.now × Ready 9 u.now }
    ensures { result ≡ of_lists close_test t.now u.now }
{
    let a = space_triangle(t);
    let b = space_triangle(u);
    let n = normal_of(b);
    if is_null(normal_of(a)) {
        edge_meets(&t[..], &u[..])
    } else if is_null(n) {
        edge_meets(&u[..], &t[..])
    } else {
        meet_in_plane(a, b, n)
    }
}
