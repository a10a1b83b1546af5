//! That a store and its callers cross threads.
use crate::{Caller, Store, Submitted};
use std::marker::Send;
use version_root::SyncState;

fn sends<T: Send>(_value: &T) {}

/// The store and each caller are sent to threads of their own. It does nothing, and is there for the proof of that alone.
pub(crate) fn store_crosses<S: SyncState>(
    store: &Store<S>,
    caller: &Caller<S>,
    submitted: &Submitted<S::Op>,
) {
    sends(store);
    sends(caller);
    sends(submitted);
}
