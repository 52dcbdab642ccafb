// Inside a shell of triangles: which of them lie ahead of a point, whether their number is odd, and whether some corner of one shell is inside
// another. The crate is the inside of the calls and offers none itself: its functions have a `requires`, since what is off the grid was refused before
// one of them is asked.
#![tactic(auto)]

mod ahead;
mod corners;

pub use corners::corner_inside;
