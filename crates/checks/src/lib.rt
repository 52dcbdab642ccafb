// What a refusal is, with all sixteen reasons for one, and the checks that several calls share: refusal 3 of a list's length, 1 of numbers off
// the grid, 2 of flat shapes. Like crate `kernel`, this is the inside of the calls: it offers none itself.
#![tactic(auto)]

mod answer;
mod grid;
mod shapes;

pub use answer::{Reason, Refusal};
pub use grid::{all_on, grid_checked, grids_checked, length_checked, off_grid};
pub use shapes::{flat_test_checked, in_space_checked, shape_checked};
