// What the programs `bench` and `further` print with, but for plates (crate `stories`): answers, and tables of rows; and, beside it, a list read out of
// a text.
//
// A table is one text, a line a row: the row costs the prover next to nothing, where a call for each row would cost half a second.
// The table is read when the program runs.
#![tactic(auto)]

mod answers;
mod calls;
mod reading;
mod tables;
#[cfg(test)]
mod tests;

pub use answers::{Listed, Told, Valued, told_verdict};
pub use calls::{flat, list, pair, segment, side, turn};
pub use reading::{LONGEST, List, read_count, read_list, take_list, until};
pub use tables::{Lists, rows};
