// The public verdict calls: whether two shapes have a point in common. Each is a promise of its own, and a call of the kernel's.
ghost use Rattle.checks.specs.Rules.{refuses_flat, takes_flat};
ghost use Rattle.predicate.specs.Rules.{VerdictRule};
ghost use Rattle.predicate.specs.Told.{told_verdict};

use crate::answer::Verdict;
use checks::{Refusal, flat_test_checked, in_space_checked};
use kernel::{flat_triangles_meet, segment_meets_triangle, triangles_meet};

// Two triangles in the plane, six numbers each. A flat one is refused.
pub fn flat_verdict(first: &[i32], second: &[i32]) -> Result<Verdict, Refusal>
    ensures { VerdictRule refuses_flat 2 3 3 first.now second.now (told_verdict result) }
{
    flat_test_checked(first, second)?;
    Ok(Verdict::from(flat_triangles_meet(first, second)))
}

// A segment and a triangle in space, six numbers and nine. A flat one is the segment or the point that it is.
pub fn segment_verdict(first: &[i32], second: &[i32]) -> Result<Verdict, Refusal>
    ensures { VerdictRule takes_flat 3 2 3 first.now second.now (told_verdict result) }
{
    in_space_checked(2, first, second)?;
    Ok(Verdict::from(segment_meets_triangle(first, second)))
}

// Two triangles in space, nine numbers each. A flat one is the segment or the point that it is.
pub fn pair_verdict(first: &[i32], second: &[i32]) -> Result<Verdict, Refusal>
    ensures { VerdictRule takes_flat 3 3 3 first.now second.now (told_verdict result) }
{
    in_space_checked(3, first, second)?;
    Ok(Verdict::from(triangles_meet(first, second)))
}
