// A job sheet answered: its fields put to an empty plate, one after the other, and a line of text for each.
//
// specs/Sheets.antt says which text a sheet has, from its bytes alone. proofs/Exists.antt shows that every sheet has one, and proofs/Unique.antt
// that it has no second one, so that the result and the buffer are fixed. The request's own example stands in specs/Example.antt.
#![tactic(auto)]

mod answer;

pub use answer::{LONGEST, TEXT, answer_sheet};
