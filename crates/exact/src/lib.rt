// The exact arithmetic of the tests: points of the grid, the determinants of document 000 at them, their signs, and the levels that these tell, by an
// estimate where it can tell them. The crate is the inside of the calls and offers none itself: what is off the grid is refused before one of its
// functions is asked, and a point keeps that it lies there (src/points.rt).
#![tactic(auto)]

mod determinant;
mod levels;
mod points;

pub use determinant::{Sign, normal_at, plane_point, side_of, space_point, turn_at, turn_of};
pub use levels::{is_narrow, level_at, level_of, level_over, low_level, plane_at, rough_of};
pub use points::{Normal, PlanePoint, Row, SpacePoint, Triangle, Vector};
