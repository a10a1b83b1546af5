//! What a caller submits.
use version_root::Batch;

/// A batch with the caller's tag.
#[derive(Drop)]
pub struct Submitted<O: Drop> {
    pub tag: u64,
    pub batch: Batch<O>,
}
