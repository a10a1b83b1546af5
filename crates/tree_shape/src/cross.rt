//! Trees cross threads.
use crate::shape::SyncShape;
use crate::tree::Tree;
use aug_monoid::crosses;

/// A tree is sent to and shared among threads. It does nothing, and is there for the proof of that alone.
pub fn tree_crosses<M: SyncShape>(tree: &Tree<M>) {
    crosses(tree);
}
