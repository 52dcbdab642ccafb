// The exact tests on shapes of the grid, a list each: whether a triangle is flat, and whether two shapes have a point in common; the same of two
// triangles in space in stages; and the normals and planes of triangles that are asked often. The crate is the inside of the calls and offers none
// itself: its functions have a `requires`, since what a call refuses is refused before one of them is asked (crate `checks`), once for a shape and not
// once for a question about it. A list's fact stands in each `requires`: a struct of the list and its fact would be made anew at each call, and mostly of a
// part of a longer list.
#![tactic(auto)]

mod kinds;
mod meeting;

pub use kinds::{Kind, is_flat};
pub use meeting::{
    estimated_standing, exact_standing, flat_triangles_meet, low_standing, meet_by_standings,
    put_normal, put_plane, segment_meets_triangle, triangles_meet,
};
