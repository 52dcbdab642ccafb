// How a triangle stands to the plane of another, by the three signs of its corners: exactly, by their low words where those tell them and else by the
// estimate first; and by the estimate alone, which can't always tell. A triangle and its normal stay two, since the normal is kept as a row of numbers
// that is no part of the triangle's list.
ghost use Rattle.std.specs.Prelude.{◌≡◌, [], ◌∷◌, ◌≤◌, ◌<◌, length};
ghost use Rattle.shape.specs.Signs.{row};
ghost use Rattle.shape.specs.SpaceTest.{pattern};
ghost use Rattle.exact.specs.Grid.{Ready};
ghost use Rattle.exact.specs.Sizes.{Sized, minor_size};
ghost use Rattle.exact.specs.Vectors.{spatial, components, Holds, normal_in, plane_in, plane_row};
ghost use Rattle.space.specs.Spaces.{IsNormal, IsPlaneOf, of_spaces, of_lists, SidesHold, Stands, sure, sure_level, Guesses};

use crate::meeting::{SpaceTriangle, space_triangle};
use estimates::{Plane, estimate_of, is_above, is_below};
use exact::{Normal, level_over, low_level, rough_of};

// ---- exactly

// The three signs of the corners of t against the plane of u, whose normal is n, read as a pattern from 0 to 26, where their low words tell them.
fn low_pattern(t: SpaceTriangle, u: SpaceTriangle, n: Normal) -> u32
    requires { IsNormal u n × Holds (row (spatial u.r) (spatial t.p)) (components n) × Holds (row (spatial u.r) (spatial t.q)) (components n) × Holds (row (spatial u.r) (spatial t.r)) (components n) }
    ensures { (result ≡ of_spaces pattern t u) × (result ≤ 26) }
{
    let v = n.vector();
    9 * low_level(u.r, v, t.p) + 3 * low_level(u.r, v, t.q) + low_level(u.r, v, t.r)
}

// The same of any sides, where the plane of u is known in doubles, too. It is written out beside `low_pattern`, whose levels ask more of the corners: one
// function over a closure would have to say what each asks and tells.
fn exact_pattern(t: SpaceTriangle, u: SpaceTriangle, n: Normal, plane: Plane) -> u32
    requires { IsNormal u n × IsPlaneOf u plane }
    ensures { (result ≡ of_spaces pattern t u) × (result ≤ 26) }
{
    9 * level_over(u.p, n, plane, t.p)
        + 3 * level_over(u.p, n, plane, t.q)
        + level_over(u.p, n, plane, t.r)
}

// The number of the standing that a pattern names; it is no enum, since the places of the corners are computed from it without a branch. It is 0 beside,
// with all corners strictly on one side; 1 within, with all on the plane; or one corner is alone on its side. Then it is 4 and the turns that put that
// corner first, and 4 more where the other triangle's last two corners have to be swapped. A digit of the pattern is 0 for a corner below the plane, 1
// on it, 2 above it, and the first corner's counts nine; beside each arm stands a sign for each corner. Each pattern with a corner alone has an arm of
// its own, since the compiler makes a table of them so: numbers that stand side by side in one arm become ranges, which it compares one after the other,
// and no processor guesses those branches. For the same reason there is an arm for what is no pattern, with a number that no other arm gives: the table
// then holds every pattern.
fn standing_of(pattern: u32) -> u32
    requires { pattern ≤ 26 }
    ensures { Stands pattern result }
{
    match pattern {
        ..=0 => 0, // ---
        1 => 6, // --0
        2 => 6, // --+
        3 => 5, // -0-
        4 => 8, // -00
        5 => 8, // -0+
        6 => 5, // -+-
        7 => 8, // -+0
        8 => 8, // -++
        9 => 4, // 0--
        10 => 9, // 0-0
        11 => 9, // 0-+
        12 => 10, // 00-
        13..=13 => 1, // 000
        14 => 6, // 00+
        15 => 5, // 0+-
        16 => 5, // 0+0
        17 => 8, // 0++
        18 => 4, // +--
        19 => 4, // +-0
        20 => 9, // +-+
        21 => 4, // +0-
        22 => 4, // +00
        23 => 9, // +0+
        24 => 10, // ++-
        25 => 10, // ++0
        26..=26 => 0, // +++
        27.. => 3,
    }
}

// The standing of t to the plane of u, whose normal is n, nine numbers each, where the low words of the sides tell them.
pub fn low_standing(t: &[i32], u: &[i32], n: Normal) -> u32
    requires { Ready 9 t.now × Ready 9 u.now × (components n ≡ normal_in u.now) × SidesHold t.now u.now }
    ensures { Stands (of_lists pattern t.now u.now) result }
{
    standing_of(low_pattern(space_triangle(t), space_triangle(u), n))
}

// The same of any sides, where the plane of u is known in doubles, too.
pub fn exact_standing(t: &[i32], u: &[i32], n: Normal, plane: Plane) -> u32
    requires { Ready 9 t.now × Ready 9 u.now × (components n ≡ normal_in u.now) × (plane ≡ plane_in u.now) }
    ensures { Stands (of_lists pattern t.now u.now) result }
{
    standing_of(exact_pattern(space_triangle(t), space_triangle(u), n, plane))
}

// ---- exactly, by rows that are kept

// The normal that fills a row of three numbers. `plane_in` is the same of doubles: one function for both would only give three values back.
pub fn normal_in(numbers: &[i64]) -> Normal
    requires { (length numbers.now ≡ 3) × Sized minor_size numbers.now }
    ensures { components result ≡ numbers.now }
{
    Normal {
        x: numbers[0],
        y: numbers[1],
        z: numbers[2],
    }
}

// The plane that fills a row of three doubles.
pub fn plane_in(numbers: &[f64]) -> Plane
    requires { length numbers.now ≡ 3 }
    ensures { result.x ∷ result.y ∷ result.z ∷ [] ≡ numbers.now }
{
    Plane {
        x: numbers[0],
        y: numbers[1],
        z: numbers[2],
    }
}

// What `exact_standing` gives, where the normal and the plane of u are kept as rows. It reads them itself and has one caller, so that it is compiled into the
// loop that asks it: numbers that are stored for a call and read back at once, in other portions, make a processor wait.
pub fn kept_standing(t: &[i32], u: &[i32], n: &[i64], plane: &[f64]) -> u32
    requires { Ready 9 t.now × Ready 9 u.now × (n.now ≡ normal_in u.now) × (plane.now ≡ plane_row u.now) }
    ensures { Stands (of_lists pattern t.now u.now) result }
{
    standing_of(exact_pattern(
        space_triangle(t),
        space_triangle(u),
        normal_in(n),
        plane_in(plane),
    ))
}

// ---- by the estimate

// A pattern, and whether the estimates are sure of it. An `Option` in its place was tried and takes 5 in 100 more: it is asked once the standing is looked
// up, and the flag is counted beside that.
#[derive(Clone, Copy)]
pub struct Guess {
    pub pattern: u32,
    pub sure: bool,
}

// Whether an estimate is farther from zero than its error.
pub fn is_sure(e: f64) -> bool
    ensures { result ≡ sure e }
{
    is_above(e) | is_below(e)
}

// The level that a sure estimate tells.
fn sure_level(e: f64) -> u32
    ensures { result ≡ sure_level e }
{
    2 * is_above(e) as u32
}

// The pattern of t over the plane of u in doubles. All three estimates are asked at once whether they are sure, which spares branches that no
// processor guesses.
fn guess_of(t: SpaceTriangle, u: SpaceTriangle, plane: Plane) -> Guess
    requires { IsPlaneOf u plane }
    ensures { Guesses (of_spaces pattern t u) result.pattern result.sure }
{
    let a = rough_of(u.p);
    let x = estimate_of(plane, a, rough_of(t.p));
    let y = estimate_of(plane, a, rough_of(t.q));
    let z = estimate_of(plane, a, rough_of(t.r));
    Guess {
        pattern: 9 * sure_level(x) + 3 * sure_level(y) + sure_level(z),
        sure: is_sure(x) & is_sure(y) & is_sure(z),
    }
}

// The standing of t to the plane of u in doubles, nine numbers each. From 16 on the number tells nothing, as `SeemsTo` of crate `kernel` has it.
pub fn estimated_standing(t: &[i32], u: &[i32], plane: Plane) -> u32
    requires { Ready 9 t.now × Ready 9 u.now × (plane ≡ plane_in u.now) }
    ensures { result < 16 → Stands (of_lists pattern t.now u.now) result }
{
    let guess = guess_of(space_triangle(t), space_triangle(u), plane);
    standing_of(guess.pattern) + 16 * !guess.sure as u32
}
