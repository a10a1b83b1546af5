//! Edges, and vertices that were reached.

/// An edge from a vertex to a vertex, which may be the same one.
#[derive(Clone, Copy, Debug, PartialEq, Eq)]
pub struct Edge {
    pub from: u64,
    pub to: u64,
}

/// A vertex, and the least number of edges of a walk to it.
#[derive(Clone, Copy, Debug, PartialEq, Eq)]
pub struct Reached {
    pub vertex: u64,
    pub distance: u64,
}
