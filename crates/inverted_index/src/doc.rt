//! Documents that are added in one batch, and what is answered for each.
use crate::index::Index;

/// A document to be added: its number and its text.
#[derive(Clone, Copy)]
pub struct Doc<'a> {
    pub doc: u64,
    pub text: &'a [u8],
}

/// What adding one document of a batch comes to: it was there, or it is added, and has so many different terms.
#[derive(Clone, Copy, Debug, PartialEq, Eq)]
pub enum Outcome {
    Known,
    New { terms: u64 },
}

/// What adding a batch answers: the index with its documents, and what became of each, in their order.
#[derive(Drop)]
pub struct AddedDocs {
    pub index: Index,
    pub outcomes: Vec<Outcome>,
}
