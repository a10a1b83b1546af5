//! What an operation tells.

use crate::Numbered;
use crate::checksum::Checksum;
use anyhow::Result;
use std::rt::Clock;
use std::time::Instant;

/// The checksum of an operation's answer, and how long it took.
#[derive(Drop)]
pub(crate) struct Timed {
    pub(crate) checksum: u64,
    pub(crate) nanoseconds: u128,
}

/// The time since a start, beside a checksum.
pub(crate) fn since(rt: &impl Clock, start: Instant, checksum: u64) -> Result<Timed> {
    let nanoseconds = start.elapsed(rt)?.as_nanos();
    Ok(Timed {
        checksum,
        nanoseconds,
    })
}

/// The checksum of all items of a sequence.
fn checksum_of(seq: &Numbered) -> u64 {
    let mut checksum = Checksum::new();
    for item in seq.cursor(0) {
        checksum.add(*item);
    }
    checksum.sum()
}

/// The time since a start, beside the checksum of the sequence that it took to make.
pub(crate) fn made(rt: &impl Clock, start: Instant, seq: &Numbered) -> Result<Timed> {
    let nanoseconds = start.elapsed(rt)?.as_nanos();
    Ok(Timed {
        checksum: checksum_of(seq),
        nanoseconds,
    })
}
