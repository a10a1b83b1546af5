//! Snapshots of a directed graph: maps from vertices to their sets of out-neighbours.
//!
//! A `Graph` is a map from vertices to `Neighbours`, whose fold is the number of edges; a set of neighbours is a map in blocks of
//! gaps. `add_edges` and `cut_edges` take edges in any order and answer a new graph, which shares what it can with the old one;
//! `bfs` answers what walks from a vertex reach, with the least numbers of edges, `within` what of it is not too far, `path` the
//! vertices of one walk of least length, and `reversed` turns each edge round. What is called with a runtime and a cut forks where
//! the cut allows it, and answers the same on any number of threads, as its twin with a name in `_alone` does on one. A call refuses
//! only for want of memory; `out_degree`, `contains_edge`, `vertices_iter` and `neighbours_iter` want none, and never refuse.
//!
//! Tests: `library_tests`. Wrong bodies: here, in `wrong-bodies/`.
#![tactic(auto)]

mod adding;
mod batch;
mod counting;
mod cross;
mod degrees;
mod edge;
mod graph;
mod iterators;
mod least_path;
mod listing;
mod neighbours;
mod packing;
mod search;
mod search_alone;
mod vertices;

pub use cross::graph_crosses;
pub use degrees::Degrees;
pub use edge::{Edge, Reached};
pub use graph::Graph;
pub use iterators::{NeighboursIter, VerticesIter};
pub use neighbours::Neighbours;
pub use vertices::Vertices;
