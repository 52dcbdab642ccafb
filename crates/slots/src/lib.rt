// The slots of a plate in two flat arrays, of coordinates and of marks: how many clashes a slot or a part has, whether the skins of two parts
// meet, a part moved or gathered into one list, and the lowest slot that would leave the grid. Like crate `kernel`, this is the inside of the
// calls: it offers none itself.
#![tactic(auto)]

mod counting;
mod flat;

pub use counting::GridSlots;
pub use flat::{Slots, mark_for};
