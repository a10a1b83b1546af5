//! The map from numbers to numbers that a store serves: a state that changes by operations of four kinds.
//!
//! A batch's operations are applied in order: a key is set, removed or added to, or a range of keys is wiped.
//!
//! `Served` is a map as a `State` of `versions`. Few operations are done one by one in place; a long run between two wipes is
//! made into one outcome for each key (`op_runs`), and these are done at once, by halves that fork where the cut allows it. Old
//! versions stay as they were. A call refuses only for want of memory.
//!
//! Tests: `served_tests`. Wrong bodies: here, in `wrong-bodies/`.
#![tactic(auto)]

mod applying;
mod bulk;
mod changing;
mod cross;
mod dividing;
mod joining;
mod merging;
mod served;

pub use cross::served_crosses;
pub use op_runs::Op;
pub use served::{Served, change_by};
