// The tests in space on the grid: how a triangle stands to another's plane, two triangles in one plane, two that each have a corner alone; and of a
// segment and a triangle the ends over the plane, the edges that it passes, and both in one plane. Crate `wires` puts those of a segment together, and
// those in one plane, with the shapes that may be flat; crate `kernel` the standings of two triangles, and their last signs where these are exact. Crate
// `deciding` asks for the estimate of the last signs here. The crate is the inside of the calls and offers none itself: what is off the grid is refused
// before a point of it is made. Triangles come as lent lists of numbers, as document 01 has it, and each function says of its lists that they are ready:
// a struct of a list and that fact would be made anew at each call, and mostly of a part of a longer list.
#![tactic(auto)]

mod meeting;
mod segments;
mod signs;
mod standings;

pub use meeting::{
    SpaceTriangle, is_null, meet_in_plane, normal_of, space_triangle, without_coordinate,
};
pub use segments::{ends_over, passes, segment_meets_in_plane};
pub use signs::{crossing, estimated_crossing};
pub use standings::{
    estimated_standing, exact_standing, kept_standing, low_standing, normal_in, plane_in,
};
