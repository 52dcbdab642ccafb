// Words of 64 bits, a bit a triangle: the places of the bits that are set, a word of one bit, and how many triangles a word has bits for. Like crate
// `kernel`, this is the inside of the calls: it offers none itself, and one of its functions has a `requires`.
#![tactic(auto)]

mod bits;
mod spans;

pub use bits::{Bits, flag_at};
pub use spans::span_of;
