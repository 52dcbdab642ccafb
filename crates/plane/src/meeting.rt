// The tests in the plane on machine signs: the decisions of crate shape's specs/PlaneTest.antt, test by test, on shapes of the grid. What
// is off the grid was refused before; a flat triangle was refused too, or goes to crate `wires`.
//
// Document 000's corners p1, q1, r1 and p2, q2, r2 are first.p, first.q, first.r and second.p, second.q, second.r.
ghost use Rattle.std.specs.Prelude.{◌≡◌};
ghost use Rattle.shape.specs.Points.{point_at};
ghost use Rattle.shape.specs.PlaneTest.{is_right, corner_in, last_edges, triangle_past_one, triangle_past_two, triangle_test, segment_past_one, segment_past_two, segment_test};
ghost use Rattle.exact.specs.Grid.{Ready};
ghost use Rattle.exact.specs.Vectors.{planar};
ghost use Rattle.plane.specs.Planes.{turned_once, left_ordered, SortedAs, PlaneAt, of_corners, of_both};

use exact::{PlanePoint, Triangle, plane_point, turn_at};

// A triangle of the plane.
pub type PlaneTriangle = Triangle<PlanePoint>;

// How some point stands to a triangle that turns left: it is in it, or strictly right of one edge or of two, its past edges. The triangle is turned
// then so that those come last.
#[derive(Clone, Copy)]
pub enum Sorted {
    Inside,
    PastOne(PlaneTriangle),
    PastTwo(PlaneTriangle),
}

// The triangle that fills a list of six numbers. That of nine, in crate `space`, reads other places by another reader: one function for both is no plainer.
pub fn plane_triangle(numbers: &[i32]) -> PlaneTriangle
    requires { Ready 6 numbers.now }
    ensures { PlaneAt (point_at 2 0 numbers.now) (point_at 2 2 numbers.now) (point_at 2 4 numbers.now) result }
{
    Triangle {
        p: plane_point(numbers, 0),
        q: plane_point(numbers, 2),
        r: plane_point(numbers, 4),
    }
}

// Whether c lies strictly right of a → b.
fn right_of(a: PlanePoint, b: PlanePoint, c: PlanePoint) -> bool
    ensures { result ≡ is_right (planar a) (planar b) (planar c) }
{
    turn_at(a, b, c) < 0
}

// The triangle with its corners turned by one.
fn turned(t: PlaneTriangle) -> PlaneTriangle
    ensures { result ≡ turned_once t }
{
    Triangle {
        p: t.q,
        q: t.r,
        r: t.p,
    }
}

// The triangle so that its corners turn left: where they turn right, two trade places.
fn left_order(t: PlaneTriangle) -> PlaneTriangle
    ensures { result ≡ left_ordered t }
{
    if right_of(t.p, t.q, t.r) {
        Triangle {
            p: t.p,
            q: t.r,
            r: t.q,
        }
    } else {
        t
    }
}

// A triangle that turns left, sorted by the signs of p against its edges.
fn sorted_by(p: PlanePoint, t: PlaneTriangle) -> Sorted
    ensures { SortedAs (planar p) t result }
{
    let once = turned(t);
    let twice = turned(once);
    if right_of(t.p, t.q, p) {
        if right_of(t.q, t.r, p) {
            Sorted::PastTwo(twice)
        } else if right_of(t.r, t.p, p) {
            Sorted::PastTwo(once)
        } else {
            Sorted::PastOne(once)
        }
    } else if right_of(t.q, t.r, p) {
        if right_of(t.r, t.p, p) {
            Sorted::PastTwo(t)
        } else {
            Sorted::PastOne(twice)
        }
    } else if right_of(t.r, t.p, p) {
        Sorted::PastOne(t)
    } else {
        Sorted::Inside
    }
}

// Where p1 → q1 passes beyond p2: p2 is in the first triangle. It is not where all of the second is right of r1 → p1, which is asked first.
fn corner_in(first: PlaneTriangle, second: PlaneTriangle) -> bool
    ensures { result ≡ corner_in (planar first.p) (planar first.q) (planar first.r) (planar second.p) }
{
    !right_of(first.p, second.p, first.r) && !right_of(first.q, first.r, second.p)
}

// The edges q1 → r1 and q2 → r2 cross.
fn last_edges(first: PlaneTriangle, second: PlaneTriangle) -> bool
    ensures { result ≡ last_edges (planar first.q) (planar first.r) (planar second.q) (planar second.r) }
{
    !right_of(first.q, first.r, second.q) && !right_of(second.q, second.r, first.r)
}

// p1 is strictly right of r2 → p2 and of no other edge.
fn past_one(first: PlaneTriangle, second: PlaneTriangle) -> bool
    ensures { result ≡ of_both triangle_past_one first second }
{
    if right_of(second.r, second.p, first.q) {
        // not where all of the first is right of r2 → p2, or all of the second is right of q1 → r1
        !right_of(second.r, second.p, first.r)
            && !right_of(first.q, first.r, second.r)
            && !right_of(first.p, second.p, first.r)
    } else if right_of(first.p, second.p, first.q) {
        corner_in(first, second)
    } else {
        !right_of(second.r, first.p, first.q)
    }
}

// p1 is strictly right of q2 → r2 and of r2 → p2.
fn past_two(first: PlaneTriangle, second: PlaneTriangle) -> bool
    ensures { result ≡ of_both triangle_past_two first second }
{
    if right_of(second.r, second.p, first.q) {
        if right_of(second.r, second.p, first.r) {
            false // all of the first is right of r2 → p2
        } else if right_of(first.q, first.r, second.r) {
            last_edges(first, second)
        } else {
            !right_of(first.p, second.p, first.r) // p2 in the first triangle, or q1 → r1 across r2 → p2
        }
    } else if right_of(second.q, second.r, first.q) {
        if right_of(second.q, first.p, first.q) {
            false // all of the second is right of p1 → q1
        } else {
            last_edges(first, second)
        }
    } else if right_of(first.p, second.p, first.q) {
        corner_in(first, second)
    } else {
        !right_of(second.q, first.p, first.q)
    }
}

// Whether two triangles that are not flat have a point in common.
pub fn planes_meet(t: PlaneTriangle, u: PlaneTriangle) -> bool
    ensures { result ≡ of_both triangle_test t u }
{
    let first = left_order(t);
    match sorted_by(first.p, left_order(u)) {
        Sorted::Inside => true, // p1 is in the second triangle
        Sorted::PastOne(second) => past_one(first, second),
        Sorted::PastTwo(second) => past_two(first, second),
    }
}

// p is strictly right of r → p of the triangle t and of no other edge. They are apart where q is right of it, too, or where all of the triangle is right
// of p → q.
fn segment_past_one(p: PlanePoint, q: PlanePoint, t: PlaneTriangle) -> bool
    ensures { result ≡ of_corners (segment_past_one (planar p) (planar q)) t }
{
    !right_of(t.r, t.p, q) && !right_of(t.r, p, q) && !right_of(p, t.p, q)
}

// p is strictly right of q → r and of r → p of the triangle t. They are apart where q is right of one of these edges, too, or where all of the triangle
// is left of p → q.
fn segment_past_two(p: PlanePoint, q: PlanePoint, t: PlaneTriangle) -> bool
    ensures { result ≡ of_corners (segment_past_two (planar p) (planar q)) t }
{
    !right_of(t.q, t.r, q) && !right_of(t.r, t.p, q) && !right_of(p, t.p, q) && !right_of(t.q, p, q)
}

// Whether a segment and a triangle that is not flat have a point in common.
pub fn segment_meets_plane(p: PlanePoint, q: PlanePoint, t: PlaneTriangle) -> bool
    ensures { result ≡ of_corners (segment_test (planar p) (planar q)) t }
{
    match sorted_by(p, left_order(t)) {
        Sorted::Inside => true, // p is in the triangle
        Sorted::PastOne(sorted) => segment_past_one(p, q, sorted),
        Sorted::PastTwo(sorted) => segment_past_two(p, q, sorted),
    }
}
