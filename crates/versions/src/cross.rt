//! That versions and what they consist of cross threads.
use crate::batch::{Batch, Entry};
use crate::state::SyncState;
use crate::version::Version;
use aug_monoid::{Share, crosses};
use std::marker::{Send, Sync};

/// A version is sent to and shared among threads. It does nothing, and is there for the proof of that alone.
pub(crate) fn version_crosses<S: SyncState>(version: &Version<S>) {
    crosses(version);
}

/// So are batches and entries, with operations that are. It does nothing, and is there for the proof of that alone.
pub(crate) fn entry_crosses<O: Share + Send + Sync>(batch: &Batch<O>, entry: &Entry<O>) {
    crosses(batch);
    crosses(entry);
}

/// A state and its operations cross threads. It does nothing, and is there for the proof of that alone: the crate of a state calls
/// it.
pub fn state_crosses<S: SyncState>(_state: &S) {}
