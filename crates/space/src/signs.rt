// Two triangles that each have a corner alone: the last two signs, with the corners in the order that the standings ask for. Exactly, by their low words
// where those tell them and else by the estimate first; and by the estimate alone, which can't always tell.
ghost use Rattle.std.specs.Prelude.{◌≡◌, ◌≤◌};
ghost use Rattle.shape.specs.Signs.{row};
ghost use Rattle.shape.specs.Normals.{normal_of};
ghost use Rattle.shape.specs.SpaceTest.{last_signs};
ghost use Rattle.exact.specs.Grid.{Ready};
ghost use Rattle.exact.specs.Small.{BothNarrow};
ghost use Rattle.exact.specs.Vectors.{spatial, components, Holds};
ghost use Rattle.space.specs.Spaces.{of_spaces, Numbered, first_place, second_place, third_place, InOrder, last_signs_by, BothSized, Crosses};

use crate::meeting::SpaceTriangle;
use crate::standings::is_sure;
use estimates::{estimate_of, is_below};
use exact::{Normal, Triangle, level_over, low_level, normal_at, plane_at, rough_of, space_point};

// The places in a triangle's list of nine numbers where its corners stand in the order that is asked for: its standing s tells the turns, and the
// standing r of the other whether the last two are swapped. They are computed: the compiler would build a table anew for each question. They are three,
// as `first_place`, `second_place` and `third_place` of specs/Spaces.antt are. Standings come from rows of numbers (crate `deciding`), so that none
// keeps what is known of it, and each function asks that they are numbered.
fn first_place(s: u32) -> usize
    requires { Numbered s }
    ensures { (result ≡ first_place s) × (result ≤ 6) }
{
    (3 * (s % 4)) as usize
}

fn second_place(s: u32, r: u32) -> usize
    requires { Numbered s × Numbered r }
    ensures { (result ≡ second_place s r) × (result ≤ 6) }
{
    (3 * ((s % 4 + 1 + r / 8) % 3)) as usize
}

fn third_place(s: u32, r: u32) -> usize
    requires { Numbered s × Numbered r }
    ensures { (result ≡ third_place s r) × (result ≤ 6) }
{
    (3 * ((s % 4 + 2 + 2 * (r / 8)) % 3)) as usize
}

// The triangle of a list with its corners in that order.
fn in_order(numbers: &[i32], s: u32, r: u32) -> SpaceTriangle
    requires { Ready 9 numbers.now × Numbered s × Numbered r }
    ensures { InOrder s r numbers.now result }
{
    Triangle {
        p: space_point(numbers, first_place(s)),
        q: space_point(numbers, second_place(s, r)),
        r: space_point(numbers, third_place(s, r)),
    }
}

// ---- p1 and p2 are alone on the non-negative sides: the triangles meet where neither of the last two signs is above zero

// The two signs by the normals of their planes, where their low words tell them. Both are found before either is asked, which spares a branch that no
// processor guesses.
fn low_signs(t: SpaceTriangle, m: Normal, u: SpaceTriangle, n: Normal) -> bool
    requires { (components m ≡ normal_of (spatial t.p) (spatial t.q) (spatial u.p)) × (components n ≡ normal_of (spatial t.p) (spatial t.r) (spatial u.r)) × Holds (row (spatial u.p) (spatial u.q)) (components m) × Holds (row (spatial u.r) (spatial u.p)) (components n) }
    ensures { result ≡ of_spaces last_signs t u }
{
    let one = low_level(u.p, m.vector(), u.q);
    let two = low_level(u.r, n.vector(), u.p);
    (one != 2) & (two != 2)
}

// The same of any sides. Beside `low_signs` it stays, as `exact_pattern` does beside `low_pattern`.
fn exact_signs(t: SpaceTriangle, m: Normal, u: SpaceTriangle, n: Normal) -> bool
    requires { (components m ≡ normal_of (spatial t.p) (spatial t.q) (spatial u.p)) × (components n ≡ normal_of (spatial t.p) (spatial t.r) (spatial u.r)) }
    ensures { result ≡ of_spaces last_signs t u }
{
    let first = level_over(t.p, m, plane_at(t.p, t.q, u.p), u.q);
    let second = level_over(t.p, n, plane_at(t.p, t.r, u.r), u.p);
    (first != 2) & (second != 2)
}

// By the estimate: 1 where the triangles meet, 0 where they don't, and from 2 on the number tells nothing. It is a number, as `Crosses` of
// specs/Spaces.antt has it, so that it is asked without a branch.
fn estimated_signs(t: SpaceTriangle, u: SpaceTriangle) -> u32
    ensures { Crosses (of_spaces last_signs t u) result }
{
    let a = rough_of(t.p);
    let x = estimate_of(plane_at(t.p, t.q, u.p), a, rough_of(u.q));
    let y = estimate_of(plane_at(t.p, t.r, u.r), a, rough_of(u.p));
    (is_below(x) & is_below(y)) as u32 + 2 * (1 - (is_sure(x) & is_sure(y)) as u32)
}

// By their low words where the flag says that all numbers are small, else by the estimate first.
fn last_signs(narrow: bool, t: SpaceTriangle, u: SpaceTriangle) -> bool
    requires { BothSized narrow t u }
    ensures { result ≡ of_spaces last_signs t u }
{
    let m = normal_at(t.p, t.q, u.p);
    let n = normal_at(t.p, t.r, u.r);
    if narrow {
        low_signs(t, m, u, n)
    } else {
        exact_signs(t, m, u, n)
    }
}

// ---- of two lists

// Whether two triangles, nine numbers each, have a point in common, where s is the standing of t and r that of u, and each has a corner alone. The flag
// says that all numbers are small.
pub fn crossing(narrow: bool, t: &[i32], s: u32, u: &[i32], r: u32) -> bool
    requires { Ready 9 t.now × Ready 9 u.now × Numbered s × Numbered r × BothNarrow narrow t.now u.now }
    ensures { result ≡ last_signs_by s r t.now u.now }
{
    last_signs(narrow, in_order(t, s, r), in_order(u, r, s))
}

// The same by the estimate: from 2 on the number tells nothing.
pub fn estimated_crossing(t: &[i32], s: u32, u: &[i32], r: u32) -> u32
    requires { Ready 9 t.now × Ready 9 u.now × Numbered s × Numbered r }
    ensures { Crosses (last_signs_by s r t.now u.now) result }
{
    estimated_signs(in_order(t, s, r), in_order(u, r, s))
}
