//! Counts of what a map's calls take.

use std::sync::atomic::{AtomicU64, Ordering};

/// How often keys were compared and shared, and augmented values combined.
#[derive(Drop)]
pub(crate) struct Work {
    pub(crate) compared: AtomicU64,
    pub(crate) shared: AtomicU64,
    pub(crate) combined: AtomicU64,
}

/// What was counted since it was asked last.
#[derive(Clone, Copy)]
pub(crate) struct Taken {
    pub(crate) compared: u64,
    pub(crate) shared: u64,
    pub(crate) combined: u64,
}

impl Work {
    pub(crate) fn new() -> Work {
        Work {
            compared: AtomicU64::new(0),
            shared: AtomicU64::new(0),
            combined: AtomicU64::new(0),
        }
    }

    /// What was counted, which begins anew.
    pub(crate) fn take(&self) -> Taken {
        Taken {
            compared: self.compared.swap(0, Ordering::SeqCst),
            shared: self.shared.swap(0, Ordering::SeqCst),
            combined: self.combined.swap(0, Ordering::SeqCst),
        }
    }
}

impl Taken {
    /// The greater of each count.
    pub(crate) fn max(self, other: Taken) -> Taken {
        Taken {
            compared: self.compared.max(other.compared),
            shared: self.shared.max(other.shared),
            combined: self.combined.max(other.combined),
        }
    }
}
