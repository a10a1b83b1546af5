//! Sequences and their cursors cross threads.
use crate::cursor::CursorOver;
use crate::seq::SeqOver;
use aug_monoid::crosses;
use seq_core::{BlockSize, SyncFold};
use std::marker::{Send, Sync};

/// A sequence and its cursors are sent to and shared among threads. It does nothing, and is there for the proof of that alone.
pub fn seq_crosses<F: SyncFold, S: BlockSize + Send + Sync>(
    seq: &SeqOver<F, S>,
    cursor: &CursorOver<'_, F, S>,
) {
    crosses(seq);
    crosses(cursor);
}
