//! The graph that a store serves: a state that changes by adding and cutting edges.
//!
//! A batch's operations are applied in order, so of several operations on one edge the last one tells whether it is there.
//!
//! `ServedGraph` is a graph as a `State` of `versions`: `change` applies a batch, with one call of `graph_snap` for all edges
//! to add and one for all to cut. Old versions stay as they were and share what they can with the new one. A call refuses only
//! for want of memory.
//!
//! Tests: `served_tests`. Wrong bodies: here, in `wrong-bodies/`.
#![tactic(auto)]

mod cross;
mod fate;
mod net;
mod op;
mod served;

pub use cross::graph_crosses;
pub use op::GraphOp;
pub use served::{ServedGraph, change_by};
