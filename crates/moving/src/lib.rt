// Numbers of the grid moved by steps that may be any signed 32-bit numbers. A sum that 32 bits can't hold is off the grid. Like
// crate `kernel`, this is the inside of the calls: it offers none itself.
#![tactic(auto)]

mod steps;

pub use steps::{move_numbers, stay_on};
