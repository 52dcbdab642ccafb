// The doors of the verdict calls.
ghost use Rattle.checks.specs.Rules.{refuses_flat, takes_flat};
ghost use Rattle.door.specs.Doors.{VerdictWritten};

use telling::{numbers_of, put};

// The flat test of two triangles in the plane, six numbers each. A flat one is refused.
pub fn zg_flat(a: &[i32], b: &[i32], answer: &mut [u64]) -> u32
    ensures { VerdictWritten refuses_flat 2 3 3 a.now b.now answer.old result answer.new }
{
    put(answer, numbers_of(predicate::flat_verdict(a, b)))
}

// A segment and a triangle in space, six numbers and nine. A flat one is the segment or the point that it is.
pub fn zg_segment(a: &[i32], b: &[i32], answer: &mut [u64]) -> u32
    ensures { VerdictWritten takes_flat 3 2 3 a.now b.now answer.old result answer.new }
{
    put(answer, numbers_of(predicate::segment_verdict(a, b)))
}

// Two triangles in space, nine numbers each. A flat one is the segment or the point that it is.
pub fn zg_pair(a: &[i32], b: &[i32], answer: &mut [u64]) -> u32
    ensures { VerdictWritten takes_flat 3 3 3 a.now b.now answer.old result answer.new }
{
    put(answer, numbers_of(predicate::pair_verdict(a, b)))
}
