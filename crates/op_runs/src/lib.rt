//! Operations on a map from numbers to numbers, and what a run of them comes to at each key.
//!
//! A run without wipes is made into one list, by a sort and one pass: for each key what its operations come to.
//!
//! `split_at_wipe` gives the operations before the first wipe; `outcomes_of` what these come to at their keys and no others, in
//! O(n * log n) for n operations: to set a key, to remove it, or to add to it. `served_map` does these outcomes to a map at
//! once. A call refuses only for want of memory.
//!
//! Tests: `served_tests`. Wrong bodies: here, in `wrong-bodies/`.
#![tactic(auto)]

mod composing;
mod cross;
mod op;
mod outcome;
mod runs;
mod sorting;
mod wipes;

pub use cross::op_crosses;
pub use op::Op;
pub use outcome::Outcome;
pub use runs::outcomes_of;
pub use wipes::split_at_wipe;
