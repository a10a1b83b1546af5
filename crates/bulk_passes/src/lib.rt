//! Passes over one whole map, as works that are divided: a filter, a reduction, and the map of entries whose keys rise.
//!
//! A map is a `Tree` of `tree_shape`. Each struct is a `Divide` of `fork_join`: a caller hands it to `divide`, which forks over the
//! halves of the work where a cut allows it, or to `divide_alone`, which gives the same answer on one thread. The answer depends on
//! neither the runtime nor the gate nor the cut. The only refusal is want of memory, which leaves what the work is on as it was.
//!
//! It stands on `fork_join`, `tree_make`, `tree_join` and `tree_shape`.
//!
//! Tests: `bulk_tests`, `work_tests`. Wrong bodies: none here; `aug_map` states these clauses again.
#![tactic(auto)]

mod block;
mod filtering;
mod planting;
mod reducing;

pub use filtering::{Filtering, SLICED_BLOCKS};
pub use planting::Planting;
pub use reducing::Reducing;
