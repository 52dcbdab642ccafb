// The call that a field of a job sheet asks for: put to a plate, or its checks alone asked of the plate's slots.
//
// A field's body is read by whoever needs its numbers. Read once into an enum, which both then take, it made an undo that is refused a seventh slower.
#![tactic(auto)]

mod applying;
mod checking;

pub use applying::apply;
pub use checking::field_checked;
