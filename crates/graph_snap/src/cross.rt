//! Graphs cross threads.
use crate::edge::{Edge, Reached};
use crate::graph::Graph;
use aug_monoid::crosses;

/// Graphs, their edges and what searches answer are sent to and shared among threads. It does nothing, and is there for the
/// proof of that alone.
pub fn graph_crosses(graph: &Graph, edge: &Edge, reached: &Reached) {
    crosses(graph);
    crosses(edge);
    crosses(reached);
}
