//! The set of what the items of a list give, gathered by halves of the list.
//!
//! An item gives keys by `Gives`. `set_of` answers all of them in order, each once: the list is cut in a part for each worker
//! where the cut allows it, the keys of a part are sorted, and parts are merged; `set_of_alone` does the same on one thread.
//! O(n * log n) work for n keys that are given. Both refuse only for want of memory.
//!
//! Tests: `ground_tests`. Wrong bodies: none here; `graph_comp` and `graph_snap` state what they make of these clauses.
#![tactic(auto)]

mod gathering;
mod gives;

pub use gathering::{set_of, set_of_alone};
pub use gives::Gives;
