//! Orders of the vertices of a graph in which each edge goes forwards.
//!
//! `topological_order` answers such an order, or a cycle, for which there is none. It stands on `graph_snap`, whose edges it lists and
//! whose neighbours it asks for, and keeps its marks in an `OrdMap`. It refuses only for want of memory.
//!
//! Tests: `library_tests`. Wrong bodies: here, in `wrong-bodies/`.
#![tactic(auto)]

mod order;
mod search;

pub use order::{Sorted, topological_order};
