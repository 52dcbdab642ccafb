// What the doors write: the four numbers in which an answer is told, and the front of a lent buffer that they are written to.
//
// specs/Numbers.antt gives the numbers of every answer, specs/Buffer.antt the result and the buffer afterwards.
#![tactic(auto)]

mod answers;
mod numbers;

pub use answers::{Coded, numbers_of};
pub use numbers::{Numbers, put};
