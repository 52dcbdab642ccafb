// The tests in the plane: two triangles, and a segment and a triangle, of the grid. The crate is the inside of the calls and offers none
// itself: what is off the grid is refused before a point of it is made. What they decide is right of
// triangles that are not flat; flat ones are refused before, or in space judged by crate `wires`.
#![tactic(auto)]

mod meeting;

pub use meeting::{PlaneTriangle, plane_triangle, planes_meet, segment_meets_plane};
