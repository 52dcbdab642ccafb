// The side of a point to a plane, estimated in double precision (document 02, Q-7): a plane is kept as its normal in doubles, and its side value is quick
// to take from that. Where it is farther from zero than it can be wrong, its sign is the sign of the exact side.
//
// specs/Doubles.antt says which double each function gives, rounding by rounding, and how far the estimate may be off; proofs/Sides.antt shows on the whole
// grid that it is no farther (`estimate_near`), and proofs/Told.antt what the sign then tells (`told`).
#![tactic(auto)]

ghost use Rattle.std.specs.Prelude.{◌≡◌, ◌≤◌, nat_abs};
ghost use Rattle.estimates.specs.Doubles.{grid_end, double, difference, component, cross, plane_of, product, estimate, far_above, far_below};

// A point of the grid as doubles, or a difference of two.
#[derive(Clone, Copy)]
pub struct RoughPoint {
    pub x: f64,
    pub y: f64,
    pub z: f64,
}

// The plane of a triangle: its normal as doubles. It is a type of its own, as document 01 has it, so that no point is taken for one.
#[derive(Clone, Copy)]
pub struct Plane {
    pub x: f64,
    pub y: f64,
    pub z: f64,
}

// A coordinate of the grid as a double, which is exact.
pub fn double_of(x: i64) -> f64
    requires { nat_abs x ≤ grid_end }
    ensures { result ≡ double x }
{
    x as f64
}

// b - a, which is exact on the grid. `row_of` of crate `exact` is the same of whole numbers; one function for both would have to be told what a difference is.
fn difference_of(b: RoughPoint, a: RoughPoint) -> RoughPoint
    ensures { result ≡ difference b a }
{
    RoughPoint {
        x: b.x - a.x,
        y: b.y - a.y,
        z: b.z - a.z,
    }
}

// The rounded difference of two rounded products.
fn component_of(p: f64, q: f64, s: f64, t: f64) -> f64
    ensures { result ≡ component p q s t }
{
    p * q - s * t
}

// v cross w. `minors_of` of crate `exact` is the same of whole numbers, where nothing rounds.
fn cross_of(v: RoughPoint, w: RoughPoint) -> Plane
    ensures { result ≡ cross v w }
{
    Plane {
        x: component_of(v.y, w.z, v.z, w.y),
        y: component_of(v.z, w.x, v.x, w.z),
        z: component_of(v.x, w.y, v.y, w.x),
    }
}

// The plane of a, b, c: b - a cross c - a.
pub fn plane_of(a: RoughPoint, b: RoughPoint, c: RoughPoint) -> Plane
    ensures { result ≡ plane_of a b c }
{
    cross_of(difference_of(b, a), difference_of(c, a))
}

// Three rounded products, added left to right. `dot_of` and `low_dot_of` of crate `exact` are the same in other words of the machine.
fn product_of(n: Plane, u: RoughPoint) -> f64
    ensures { result ≡ product n u }
{
    n.x * u.x + n.y * u.y + n.z * u.z
}

// The estimate of the side of d to a plane through a.
pub fn estimate_of(plane: Plane, a: RoughPoint, d: RoughPoint) -> f64
    ensures { result ≡ estimate plane a d }
{
    product_of(plane, difference_of(a, d))
}

// How far an estimate may be off: 15 times 2^40, `error_limit` of specs/Doubles.antt.
const ERROR_LIMIT: f64 = 16492674416640.0;

// Whether an estimate is so far above zero that the side is above it, too.
pub fn is_above(e: f64) -> bool
    ensures { result ≡ far_above e }
{
    ERROR_LIMIT < e
}

// The same below zero.
pub fn is_below(e: f64) -> bool
    ensures { result ≡ far_below e }
{
    e < -ERROR_LIMIT
}
