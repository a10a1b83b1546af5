//! What handles keep crosses threads.
use crate::inner::Inner;
use aug_monoid::crosses;

/// What an open handle keeps is sent to and shared among threads, so that a handle may move to another thread, and its shares be used
/// side by side. It does nothing, and is there for the proof of that alone.
pub fn kept_crosses(kept: &Inner) {
    crosses(kept);
}
