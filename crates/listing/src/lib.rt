// The listing: every pair of triangles of two lists that have a point in common, in a fixed order, written into a buffer that the caller
// lends.
//
// The call takes any lists, any buffer and any start, and has no `requires`: what it can't serve it refuses, and then the buffer stays as it
// stood. specs/Rules.antt gives the answer and the buffer afterwards for every input, and proofs/Unique.antt shows that no second answer and no
// second buffer meet the contract.
#![tactic(auto)]

mod input;
mod pairs;
mod writing;

pub use pairs::list_pairs;
