//! What an operation tells.

use crate::Map;
use crate::numbers::Checksum;
use anyhow::Result;
use std::rt::Clock;
use std::time::Instant;

/// The checksum of an operation's answer, and how long it took.
#[derive(Drop)]
pub(crate) struct Timed {
    pub(crate) checksum: u64,
    pub(crate) nanoseconds: u128,
}

/// The time since a start, beside a checksum.
pub(crate) fn since(rt: &impl Clock, start: Instant, checksum: u64) -> Result<Timed> {
    let nanoseconds = start.elapsed(rt)?.as_nanos();
    Ok(Timed {
        checksum,
        nanoseconds,
    })
}

/// The checksum of all keys and values of a map.
pub(crate) fn checksum_of(map: &Map) -> u64 {
    let mut checksum = Checksum::new();
    for (key, val) in map.iter() {
        checksum.add(*key);
        checksum.add(*val);
    }
    checksum.sum()
}

/// The time since a start, beside the checksum of the map that it took to make.
pub(crate) fn made(rt: &impl Clock, start: Instant, map: &Map) -> Result<Timed> {
    let nanoseconds = start.elapsed(rt)?.as_nanos();
    Ok(Timed {
        checksum: checksum_of(map),
        nanoseconds,
    })
}
