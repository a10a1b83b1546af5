//! A block crosses threads.
use crate::leaf::RowLeaf;
use aug_monoid::crosses;

/// A block is sent to and shared among threads. It does nothing, and is there for the proof of that alone.
pub fn leaf_crosses(leaf: &RowLeaf) {
    crosses(leaf);
}
