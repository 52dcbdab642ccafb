// The checks of shapes that fill their lists: refusals 1 and 2 of one triangle; those of the flat test, refusal 3 of both lists, then 1 and 2 of
// the first, then of the second; and those of a call on two shapes in space, which takes flat shapes and so never gives 2.
ghost use Rattle.std.specs.Prelude.{◌≡◌, cond, ◌*◌, ◌≤◌, length};
ghost use Rattle.kernel.specs.Kinds.{coordinates_of};
ghost use Rattle.checks.specs.Answers.{refused, fine, ◌then◌};
ghost use Rattle.checks.specs.Told.{told_check};
ghost use Rattle.checks.specs.Rules.{refuses_flat, takes_flat, shape_checks, pair_checks};

use crate::answer::{Reason, Refusal};
use crate::grid::{grid_checked, grids_checked, lengths_checked};
use kernel::{Kind, is_flat};

// Refusal 2.
fn flat_checked(side: u32, flat: bool) -> Result<(), Refusal>
    ensures { told_check result ≡ cond flat (refused 2 side 0) fine }
{
    if flat {
        return Err(Refusal::new(Reason::FlatShape, side, 0));
    }
    Ok(())
}

// Refusal 1, then 2, of a triangle.
pub fn shape_checked(kind: Kind, side: u32, numbers: &[i32]) -> Result<(), Refusal>
    requires { length numbers.now ≡ 3 * coordinates_of kind }
    ensures { told_check result ≡ shape_checks refuses_flat (coordinates_of kind) 3 side numbers.now }
{
    grid_checked(side, numbers)?;
    flat_checked(side, is_flat(kind, numbers))
}

// Two triangles in the plane whose lists have the right lengths.
fn plane_triangles_checked(first: &[i32], second: &[i32]) -> Result<(), Refusal>
    requires { (length first.now ≡ 6) × (length second.now ≡ 6) }
    ensures { told_check result ≡ shape_checks refuses_flat 2 3 0 first.now then shape_checks refuses_flat 2 3 1 second.now }
{
    shape_checked(Kind::PlaneTriangle, 0, first)?;
    shape_checked(Kind::PlaneTriangle, 1, second)
}

// The flat test: two triangles in the plane, six numbers each.
pub fn flat_test_checked(first: &[i32], second: &[i32]) -> Result<(), Refusal>
    ensures { told_check result ≡ pair_checks refuses_flat 2 3 3 first.now second.now }
{
    lengths_checked(6, first, 6, second)?;
    plane_triangles_checked(first, second)
}

// A call in space on a segment (two corners) or a triangle (three), and a triangle. `corners` is counted with: three numbers for each.
pub fn in_space_checked(corners: usize, first: &[i32], second: &[i32]) -> Result<(), Refusal>
    requires { corners ≤ 3 }
    ensures { told_check result ≡ pair_checks takes_flat 3 corners 3 first.now second.now }
{
    lengths_checked(corners * 3, first, 9, second)?;
    grids_checked(first, second)
}
