// Closed shells: whether each directed edge of a list's triangles occurs once and its reverse once. The crate is the inside of the calls and offers
// none itself.
#![tactic(auto)]

mod closing;

pub use closing::is_open;
