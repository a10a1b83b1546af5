//! Indexes and terms cross threads.
use crate::index::Index;
use crate::term::Term;
use aug_monoid::crosses;

/// An index and terms are sent to and shared among threads. It does nothing, and is there for the proof of that alone.
pub fn index_crosses(index: &Index, term: &Term) {
    crosses(index);
    crosses(term);
}
