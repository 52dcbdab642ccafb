// Tables of words that tell of 64 boxes at once which of them a box may reach, so that most pairs of two large lists are never looked at one by
// one. Like crate `kernel`, this is the inside of the calls: it offers none itself, and `put_candidates` has a `requires`.
#![tactic(auto)]

mod bits;
mod candidates;
mod ends;
mod marks;
mod rows;
mod tables;

pub use candidates::put_candidates;
