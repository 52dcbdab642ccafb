// The plate: 64 slots for triangles of up to 16 parts, a clash count that is kept and always true, and undo.
//
// A plate comes from `empty` and from the calls that change it, which take it and give it back by value; the questions take it. No call has
// a `requires`: what it can't serve it refuses, and then the plate stays as it stood. specs/Plates.antt says what each call promises of a
// plate that these calls made, with any history that made it; proofs/Demand.antt has demand 3, over any list of calls, proofs/Table.antt each reason exactly in its
// case, proofs/Unique.antt that no second answer meets a promise, and proofs/PartsVerdict.antt what a verdict on two parts says.
// On any other value of the struct a call is safe and ends.
#![tactic(auto)]

mod calls;
mod questions;

pub use calls::{PlateAnswer, empty, lift, place, shift, undo};
pub use keeping::Plate;
pub use questions::{count, parts, reach};
