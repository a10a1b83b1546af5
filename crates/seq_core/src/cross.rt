//! Sequences cross threads.
use crate::fold::SyncFold;
use crate::tree::SeqTree;
use crate::width::BlockSize;
use aug_monoid::crosses;
use std::marker::{Send, Sync};

/// A sequence is sent to and shared among threads. It does nothing, and is there for the proof of that alone.
pub fn tree_crosses<F: SyncFold, S: BlockSize + Send + Sync>(tree: &SeqTree<F, S>) {
    crosses(tree);
}
