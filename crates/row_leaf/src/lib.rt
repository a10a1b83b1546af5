//! Blocks of places with weights, stored by rows as the gaps between them.
//!
//! A `RowLeaf` is a `Leaf` of one vector of bytes: for each entry the gap from the first number before, the second number and the
//! weight, as `gap_code` keeps them. The points of a range tree and their rows stand in it. A key is found by a walk over the
//! code, in O(n) for a block of n entries. A call that makes a block refuses only for want of memory.
//!
//! Tests: `ground_tests`. Wrong bodies: here, in `wrong-bodies/`.
#![tactic(auto)]

mod cell;
mod cross;
mod leaf;
mod seek;

pub use cross::leaf_crosses;
pub use leaf::RowLeaf;
