//! Maps sought by their augmented values: the entries whose values pass a test, and the first of them.
//!
//! A tree whose stored fold fails the test is passed over, so the cost goes with the entries that pass and the height of the
//! tree, and not with the number of entries.
//!
//! It stands on `tree_join` and `tree_shape`.
//!
//! Tests: `map_tests`, `work_tests`. Wrong bodies: none here; `aug_map` states these clauses again.
#![tactic(auto)]

mod filter;
mod finding;
mod passing;

pub use filter::{aug_filter, aug_filter_counted};
pub use finding::{first_where, first_where_counted};
