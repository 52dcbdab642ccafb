// The verdicts on all pairs of two lists of triangles, kept as bits of words. Like crate `kernel`, this is the inside of the calls: it offers none
// itself. `decide_lists` has a `requires`, since what can't be served is refused before it is asked.
#![tactic(auto)]

mod deciding;
mod places;
mod sorting;
mod standings;
mod verdicts;

pub use deciding::decide_lists;
