//! Look-ups and changes of single keys in persistent maps.
//!
//! A map is a `Tree` of `tree_shape`. A change copies the path to its key and one block, and shares the rest with its argument.
//! A call refuses only for want of memory.
//!
//! It stands on `tree_join` and `tree_shape`.
//!
//! Tests: `tree_tests`. Wrong bodies: none here; `aug_map` will state these clauses again.
#![tactic(auto)]

mod dels;
mod gets;
mod leaves;
mod puts;
mod sides;

pub use dels::del;
pub use gets::{contains_key, get, get_ref};
pub use puts::{put, put_sought, single};
