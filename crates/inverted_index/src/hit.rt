//! A document that a query found.

/// A document that a query found, with its weight there.
#[derive(Clone, Copy, Debug, PartialEq, Eq)]
pub struct Hit {
    pub doc: u64,
    pub weight: u64,
}
