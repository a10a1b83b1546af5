//! What an operation answers.

/// The checksum of an operation, and how long it took.
#[derive(Drop)]
pub struct Timed {
    pub checksum: u64,
    pub nanoseconds: u128,
}
