// The doors for programs in C and Rust: each public call of crates `predicate` and `listing` that they are to have, with its answer written
// as four numbers into a buffer that the caller lends (crate `telling`), the pair call once more for triangles that are held as bytes, with its
// answer as one number, a run of calls on a plate (crate `runs`), and the answer to a job sheet (crate `answering`). Crate `door_c` exports
// them.
//
// A door has no `requires`: any lists, bytes and buffers may be given. In crate `telling` specs/Numbers.antt gives the numbers of every answer
// and specs/Buffer.antt the result and the buffer afterwards; specs/Doors.antt cites them for the verdicts and the listing, and
// proofs/Unique.antt shows that nothing else meets a contract; for `zg_plate` that is `run_unique` of crate `runs`, for `zg_sheet` `text_unique`
// of crate `answering`.
#![tactic(auto)]

mod bytes;
mod listings;
mod plates;
mod sheets;
mod signs;
mod verdicts;

pub use bytes::zg_pair_bytes;
pub use listings::zg_list;
pub use plates::zg_plate;
pub use sheets::zg_sheet;
pub use signs::{zg_side, zg_turn};
pub use verdicts::{zg_flat, zg_pair, zg_segment};
