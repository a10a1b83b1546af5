//! What an operation tells.

use crate::checksum::Checksum;
use anyhow::Result;
use aug_monoid::SumMax;
use ord_map::Iter;
use std::rt::Clock;
use std::time::Instant;

/// The checksum of an operation's answer, and how long it took.
#[derive(Drop)]
pub(crate) struct Timed {
    pub(crate) checksum: u64,
    pub(crate) nanoseconds: u128,
}

/// The time since a start, beside a checksum.
pub(crate) fn since(rt: &impl Clock, start: Instant, checksum: u64) -> Result<Timed> {
    let nanoseconds = start.elapsed(rt)?.as_nanos();
    Ok(Timed {
        checksum,
        nanoseconds,
    })
}

/// The time since a start, beside the checksum of the entries of the map that it took to make.
pub(crate) fn made(
    rt: &impl Clock,
    start: Instant,
    entries: Iter<'_, SumMax<u64>>,
) -> Result<Timed> {
    let nanoseconds = start.elapsed(rt)?.as_nanos();
    Ok(Timed {
        checksum: Checksum::of(entries)?,
        nanoseconds,
    })
}
