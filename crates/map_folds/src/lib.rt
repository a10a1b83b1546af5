//! Folds to take as they are: the augments of sums, extremes, counts, means, truth values and runs, and of three at once.
//!
//! Each is an `Augment` of `aug_monoid`, which a map's type names. Its `base_of` and `combined` say what the map answers; their
//! words and laws stand in `specs/`. Where an answer can pass the numbers of its type, the fold's head says what comes then.
//!
//! Tests: `ground_tests` and `map_tests`. Wrong bodies: none; a fold's contract is an equation.
#![tactic(auto)]

mod count;
mod ends;
mod extreme_entries;
mod extremes;
mod longest_run;
mod mean;
mod summary;
mod sums;
mod taking;
mod triple;
mod truths;

pub use count::Count;
pub use ends::{FirstValue, LastValue};
pub use extreme_entries::{GreatestEntry, LeastEntry};
pub use extremes::{Greatest, Least};
pub use longest_run::{LongestRun, Runs, folds_longest_runs};
pub use mean::{Mean, SumCount};
pub use summary::{SumMaxMin, Summary};
pub use sums::{CheckedSum, SaturatingSum, SignedSum};
pub use triple::Triple;
pub use truths::{AllTrue, AnyTrue};
