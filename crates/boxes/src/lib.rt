// What is found out once of each triangle of a list, its box, its normal and its plane in doubles; boxes that are apart; and whether all numbers of a list
// are small. Like crate `kernel`, this is the inside of the calls: it offers none itself, and its functions have a `requires`, but for
// `is_narrow`, which any list may be put to.
#![tactic(auto)]

mod boxes;
mod narrow;

pub use boxes::{boxes_apart, put_boxes, put_normals, put_planes};
pub use narrow::is_narrow;
