//! That the ends of a root cross threads, and what a reader answers.
use crate::{Missed, Notice, Reader, Writer};
use aug_monoid::crosses;
use std::marker::Send;
use versions::SyncState;

fn sends<T: Send>(_value: &T) {}

/// Each end is sent to a thread of its own. It does nothing, and is there for the proof of that alone.
pub(crate) fn ends_cross<S: SyncState>(writer: &Writer<S>, reader: &Reader<S>, notice: &Notice<S>) {
    sends(writer);
    sends(reader);
    sends(notice);
}

/// Why a reader took no version is sent to and shared among threads. It does nothing, and is there for the proof of that alone.
pub(crate) fn missed_crosses(missed: &Missed) {
    crosses(missed);
}
