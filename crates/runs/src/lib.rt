// A run of calls on a plate, from the empty one: the calls come as lists of numbers, and six numbers are written for each.
//
// specs/PlateRuns.antt says what is asked, what is answered and where a run ends, and proofs/RunUnique.antt that nothing else meets the contract.
#![tactic(auto)]

mod calls;
mod run;

pub use run::run_calls;
