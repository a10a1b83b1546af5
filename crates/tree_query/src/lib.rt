//! Questions to augmented maps: folds of ranges of keys, places of keys, neighbours, and parts.
//!
//! A fold of a range takes the stored folds of the trees that lie in it whole, so its cost goes with the height of the tree
//! and the size of a block, and not with the number of entries in the range.
//!
//! It stands on `tree_join` and `tree_shape`.
//!
//! Tests: `map_tests`, `work_tests`. Wrong bodies: none here; `aug_map` states these clauses again.
#![tactic(auto)]

mod folds;
mod neighbours;
mod parts;
mod places;
mod project;
mod range;

pub use folds::{aug_left, aug_range, aug_right};
pub use neighbours::{next, prev};
pub use parts::{above, at_least, below, slice};
pub use places::{rank, select};
pub use project::{aug_project, aug_project_counted, aug_project_in_steps};
