// Two segments in space, whose ends may be equal, on machine signs: the decision of crate shape's specs/WireTest.antt.
ghost use Rattle.std.specs.Prelude.{◌≡◌};
ghost use Rattle.shape.specs.WireTest.{both_below, stretches_meet, one_side, beside_line, lines_meet, shadows_meet, segments_test};
ghost use Rattle.shape.specs.SpaceTest.{without};
ghost use Rattle.exact.specs.Vectors.{planar, spatial};
ghost use Rattle.wires.specs.Wires.{along_meet};

use exact::{PlanePoint, SpacePoint, level_at, turn_at};
use space::without_coordinate;

// A segment of the plane, or of space.
#[derive(Clone, Copy)]
pub struct Segment<P> {
    pub p: P,
    pub q: P,
}

// ---- along a coordinate

// Whether both p and q are below u and below v: four tests, as `both_below` has them.
fn both_below(p: i64, q: i64, u: i64, v: i64) -> bool
    ensures { result ≡ both_below p q u v }
{
    p < u && p < v && q < u && q < v
}

// Whether the stretch from p to q and that from u to v have a number in common.
fn stretches_meet(p: i64, q: i64, u: i64, v: i64) -> bool
    ensures { result ≡ stretches_meet p q u v }
{
    !both_below(p, q, u, v) && !both_below(u, v, p, q)
}

// Whether the stretches of two segments do along each coordinate.
fn along_meet(s: Segment<SpacePoint>, t: Segment<SpacePoint>) -> bool
    ensures { result ≡ along_meet (spatial s.p) (spatial s.q) (spatial t.p) (spatial t.q) }
{
    stretches_meet(s.p.z, s.q.z, t.p.z, t.q.z)
        && stretches_meet(s.p.y, s.q.y, t.p.y, t.q.y)
        && stretches_meet(s.p.x, s.q.x, t.p.x, t.q.x)
}

// ---- in a shadow

// Whether two numbers are strictly on one side of zero.
fn one_side(x: i64, y: i64) -> bool
    ensures { result ≡ one_side x y }
{
    if 0 < x { 0 < y } else { x < 0 && y < 0 }
}

// Whether the ends of t are strictly on one side of the line of s.
fn beside_line(s: Segment<PlanePoint>, t: Segment<PlanePoint>) -> bool
    ensures { result ≡ beside_line (planar s.p) (planar s.q) (planar t.p) (planar t.q) }
{
    one_side(turn_at(s.p, s.q, t.p), turn_at(s.p, s.q, t.q))
}

// Whether neither segment is strictly on one side of the other's line.
fn lines_meet(s: Segment<PlanePoint>, t: Segment<PlanePoint>) -> bool
    ensures { result ≡ lines_meet (planar s.p) (planar s.q) (planar t.p) (planar t.q) }
{
    !beside_line(s, t) && !beside_line(t, s)
}

// A segment without the coordinate k.
fn shadow(k: u32, s: Segment<SpacePoint>) -> Segment<PlanePoint>
    ensures p { planar result.p ≡ without k (spatial s.p) }
    ensures q { planar result.q ≡ without k (spatial s.q) }
{
    Segment {
        p: without_coordinate(k, s.p),
        q: without_coordinate(k, s.q),
    }
}

// The same of the shadows without the coordinate k.
fn shadows_meet(k: u32, s: Segment<SpacePoint>, t: Segment<SpacePoint>) -> bool
    ensures { result ≡ shadows_meet k (spatial s.p) (spatial s.q) (spatial t.p) (spatial t.q) }
{
    lines_meet(shadow(k, s), shadow(k, t))
}

// Whether two segments have a point in common.
pub fn segments_meet(s: Segment<SpacePoint>, t: Segment<SpacePoint>) -> bool
    ensures { result ≡ segments_test (spatial s.p) (spatial s.q) (spatial t.p) (spatial t.q) }
{
    along_meet(s, t) && level_at(s.p, s.q, t.p, t.q) == 1 && (0..3).all(|k| shadows_meet(k, s, t))
}
