// The plate as a value, and the steps that its calls are made of: a slot written or a part moved, with the count kept and the change noted in
// the journal, and what the journal keeps put back. Like crate `kernel`, this is the inside of the calls: it offers none itself.
#![tactic(auto)]

mod journal;
mod plates;

pub use journal::{Entry, blank_entry, popped};
pub use plates::{Plate, changed, restored, slid};
