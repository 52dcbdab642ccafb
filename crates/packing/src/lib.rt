// Numbers in bytes, low byte first: what job sheets and byte doors are read with. A place is told beside the bytes, since a field's head and its body are
// read out of one list.
#![tactic(auto)]

mod reading;
mod writing;

pub use reading::{array_at, byte_at, length_at, numbers_at};
pub use writing::put_number;
