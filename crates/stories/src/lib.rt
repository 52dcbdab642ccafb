// What the programs `bench` and `further` print with on plates: a row of each call, tables of places, and many changes at once.
#![tactic(auto)]

mod changes;
mod plates;

pub use changes::{fill, undo_times, undos_served};
pub use plates::{Standing, counted, lift_row, parts_rows, place_rows, shift_rows, undo_row};
