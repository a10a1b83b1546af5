//! What operations make of an edge.
use aug_monoid::{NoMemory, Share};
use std::alloc::Global;

/// What becomes of an edge.
#[derive(Clone, Copy, Debug)]
pub(crate) enum Fate {
    Cut,
    Added,
}

impl Share for Fate {
    ghost never_refuses = { Unit {0} };

    fn share(&self, _alloc: Global) -> Result<Fate, NoMemory> {
        Ok(*self)
    }

    fn is_total() -> bool {
        true
    }
}
