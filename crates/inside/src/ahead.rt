// Whether a triangle lies ahead, in the +x direction, of a point that is moved by a vanishing amount in y and a still smaller one in z: the decision of
// crate shape's specs/InsideTest.antt, level by level (0 below zero, 1 zero, 2 above, as in crate `exact`). No number here is larger than those of the
// tests.
ghost use Rattle.std.specs.Prelude.{◌≡◌, [], ◌∷◌};
ghost use Rattle.shape.specs.InsideTest.{first_of, edge_level, plane_level, is_ahead};
ghost use Rattle.exact.specs.Vectors.{spatial};

use exact::{SpacePoint, Triangle, level_at, level_of, normal_at, turn_at};
use space::without_coordinate;

// The first level that isn't the middle one. Levels are numbers here too, as in `first_of`, `edge_level` and `plane_level` of that file.
fn first_of(x: u32, y: u32) -> u32
    ensures { result ≡ first_of x y }
{
    if x == 1 { y } else { x }
}

// On which side of a → b the moved point lies, in the yz shadow. Where its turn is zero the move in y tells, and then the move in z.
fn edge_level(a: SpacePoint, b: SpacePoint, p: SpacePoint) -> u32
    ensures { result ≡ edge_level (spatial a) (spatial b) (spatial p) }
{
    let turn = level_of(turn_at(
        without_coordinate(0, a),
        without_coordinate(0, b),
        without_coordinate(0, p),
    ));
    if turn != 1 {
        turn
    } else {
        first_of(level_of(a.z - b.z), level_of(b.y - a.y))
    }
}

// On which side of the plane of a triangle the moved point lies; likewise. The normal is found only where the point is on the plane.
fn plane_level(t: Triangle<SpacePoint>, p: SpacePoint) -> u32
    ensures { result ≡ plane_level (spatial t.p) (spatial t.q) (spatial t.r) (spatial p) }
{
    let side = level_at(t.p, t.q, t.r, p);
    if side != 1 {
        side
    } else {
        let n = normal_at(t.p, t.q, t.r);
        first_of(level_of(-n.y), level_of(-n.z))
    }
}

// Whether a triangle lies ahead of the moved point. Where a first edge has no side, its ends have one shadow.
pub fn triangle_ahead(t: Triangle<SpacePoint>, p: SpacePoint) -> bool
    ensures { result ≡ is_ahead (spatial p) (spatial t.p ∷ spatial t.q ∷ spatial t.r ∷ []) }
{
    let e = edge_level(t.p, t.q, p);
    e != 1 && edge_level(t.q, t.r, p) == e && edge_level(t.r, t.p, p) == e && plane_level(t, p) == e
}
