// Why a change of a plate is refused, asked of the plate's slots and reach alone: the checks of place, lift, shift and undo.
//
// Crate `plate` makes its calls of these checks and of the steps of crate `keeping`. Who only wants to know whether a change would be refused
// need not pass a plate, which takes longer than most refusals.
#![tactic(auto)]

mod changes;

pub use changes::{
    lift_checked, part_checked, place_checked, present_checked, shift_checked, thrice, undo_checked,
};
