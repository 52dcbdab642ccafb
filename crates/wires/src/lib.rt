// The tests in space of shapes that may be flat: two segments, a segment and a triangle, and two triangles of which one lies in the other's plane or is
// flat, which crate `kernel` finds out. A flat triangle is the union of its edges, and a point is a segment with equal ends. The crate is the inside of
// the calls and offers none itself: its functions have a `requires`, since what is off the grid is refused before one of them is asked.
#![tactic(auto)]

mod segments;
mod triangles;

pub use triangles::{close_meet, segment_meets_any};
