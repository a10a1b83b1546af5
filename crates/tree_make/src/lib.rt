//! Trees made of entries and of other trees: a tree of a list, the list of a tree, and trees joined around an entry.
//!
//! These are calls of `tree_shape` and `tree_join` with a counter of their own, for callers that have no bound on steps to keep;
//! those that have one take `join_around_counted` and `tree_of_counted`, which count with the caller's. `tree_of` takes its entries
//! from a vector and moves them; `tree_of_slice` shares them. O(n) for n entries, and O(log n) for a join. A call refuses only for
//! want of memory.
//!
//! It stands on `tree_join` and `tree_shape`.
//!
//! Tests: `tree_tests`. Wrong bodies: none here; `aug_map` proves its by these clauses.
#![tactic(auto)]

mod joining;
mod listing;

pub use joining::{join_around, join_around_counted, joined};
pub use listing::{entries_of, tree_of, tree_of_counted, tree_of_slice};
