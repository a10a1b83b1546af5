//! Operations on two whole maps, as work that is divided: union, intersection and difference.
//!
//! A map is a `Tree` of `tree_shape`. `Combining` is a `Divide` of `fork_join` on two trees, and `Uniting`, `Intersecting` and
//! `Differing` say what it makes of them. A caller hands it to `divide`, which forks over the halves of the work where a cut allows
//! it, or to `divide_alone`, which gives the same answer on one thread; `combine_counted` does the latter, and bounds its steps. The
//! answer depends on neither the runtime nor the gate nor the cut. The only refusal is want of memory, which leaves the maps that the
//! two trees are shared with as they were.
//!
//! It stands on `bulk_passes`, `entry_lists`, `fork_join`, `tree_make`, `tree_cut`, `tree_entry`, `tree_join` and `tree_shape`.
//!
//! Tests: `bulk_tests`, `work_tests`. Wrong bodies: none here; `aug_map` states these clauses again.
#![tactic(auto)]

mod combination;
mod combining;
mod counted;
mod differing;
mod exchanged;
mod few;
mod intersecting;
mod one;
mod uniting;

pub use combination::Combination;
pub use combining::{Combining, shared_sides};
pub use counted::combine_counted;
pub use differing::Differing;
pub use intersecting::Intersecting;
pub use uniting::Uniting;
