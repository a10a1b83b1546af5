//! Changes of single keys in place, in maps whose nodes and blocks have one owner.
//!
//! A map is a `Tree` of `tree_shape`. As in PAM, a node or block is changed where it stands while nobody else owns it, and
//! copied where somebody does: a copy of the map that was taken before stays as it was. A call refuses only for want of
//! memory, and then the map is as it was.
//!
//! It stands on `tree_entry`, `tree_shape` and `balance`; a `ShapeMut` is a shape whose leaves are changed in place.
//!
//! Tests: `tree_tests`. Wrong bodies: here.
#![tactic(auto)]

mod blocks;
mod dels;
mod nodes;
mod puts;
mod replaced;
mod shape_mut;
mod unions;

pub use dels::del_mut;
pub use puts::{insert_mut, put_mut};
pub use shape_mut::ShapeMut;
pub use unions::put_with;
