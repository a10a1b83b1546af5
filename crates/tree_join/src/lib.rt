//! Join: one call puts two persistent maps and an entry between them together, and all other changes of maps stand on it.
//!
//! A map is a `Tree` of `tree_shape`. No call changes its arguments: each answer shares what it can with them. A call refuses
//! only for want of memory. Trees stay weight-balanced with the parameter 1/4, as in just-join trees: the heavy side is opened
//! down to a part that the light side balances, linked there, and turned on the way up.
//!
//! It stands on `tree_shape` and `balance`.
//!
//! Tests: `tree_tests`. Wrong bodies: none here; the crates above state these clauses again.
#![tactic(auto)]

mod ends;
mod joins;
mod owners;
mod sides;
mod sizes;
mod turns;

pub use ends::join2;
pub use joins::{join, join_lent, join_owned};
pub use owners::{Part, another_owner};
