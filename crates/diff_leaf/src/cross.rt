//! A block crosses threads.
use crate::leaf::NumberLeaf;
use crate::number_key::NumberKey;
use aug_monoid::crosses;
use gap_code::ValueCode;
use std::marker::{Send, Sync};

/// A block is sent to and shared among threads where its keys and values are. It does nothing, and is there for the proof of that
/// alone.
pub fn leaf_crosses<K: NumberKey + Send + Sync, V: ValueCode + Send + Sync>(
    leaf: &NumberLeaf<K, V>,
) {
    crosses(leaf);
}
