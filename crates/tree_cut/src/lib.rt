//! Persistent maps taken apart: at their top and at a key.
//!
//! A map is a `Tree` of `tree_shape`. No call changes its arguments, and each answer shares what it can with them. A call
//! refuses only for want of memory.
//!
//! It stands on `tree_join` and `tree_shape`.
//!
//! Tests: `tree_tests`. Wrong bodies: none here; `aug_map` will state these clauses again.
#![tactic(auto)]

mod exposing;
mod splits;

pub use exposing::{Exposed, expose};
pub use splits::{Parts, split};
