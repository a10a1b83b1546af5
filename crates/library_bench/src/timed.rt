//! What an operation tells.

use anyhow::Result;
use std::rt::Clock;
use std::time::Instant;

/// The checksum of an operation's answer, and how long it took.
#[derive(Drop)]
pub(crate) struct Timed {
    pub(crate) checksum: u64,
    pub(crate) nanoseconds: u128,
}

/// The nanoseconds since a start.
pub(crate) fn since(rt: &impl Clock, start: Instant) -> Result<u128> {
    Ok(start.elapsed(rt)?.as_nanos())
}
