//! Vertices with their labels.

/// A vertex, and a vertex of its component as its label.
#[derive(Clone, Copy, Debug, PartialEq, Eq)]
pub struct Labelled {
    pub vertex: u64,
    pub label: u64,
}
