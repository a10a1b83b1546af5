//! Pushes and gets of one long log.

use crate::timed::Timed;
use anyhow::Result;
use aug_monoid::{NoMemory, Share};
use shared_log::SharedLog;
use std::alloc::Global;
use std::rt::Clock;
use std::time::Instant;

/// A log of the numbers below the size. Each 1000th log is kept until the next one is.
fn filled(alloc: Global, size: u64) -> Result<SharedLog<u64>, NoMemory> {
    let mut log = SharedLog::new();
    let mut kept = SharedLog::new();
    for item in 0..size {
        log = log.push(alloc, item)?;
        if item % 1000 == 0 {
            kept = log.share(alloc)?;
        }
    }
    drop(kept);
    Ok(log)
}

fn sum_of(log: &SharedLog<u64>, size: u64) -> u64 {
    let mut sum = 0u64;
    for at in 0..size {
        if let Some(item) = log.get(at) {
            sum = sum.wrapping_add(*item);
        }
    }
    sum
}

/// Fills a log, and answers its length.
pub fn pushes(rt: &impl Clock, alloc: Global, size: u64) -> Result<Timed> {
    let start = Instant::now(rt)?;
    let log = filled(alloc, size)?;
    let nanoseconds = start.elapsed(rt)?.as_nanos();
    Ok(Timed {
        checksum: log.len(),
        nanoseconds,
    })
}

/// Reads a log whole, and answers the sum of its items.
pub fn gets(rt: &impl Clock, alloc: Global, size: u64) -> Result<Timed> {
    let log = filled(alloc, size)?;
    let start = Instant::now(rt)?;
    let checksum = sum_of(&log, size);
    let nanoseconds = start.elapsed(rt)?.as_nanos();
    Ok(Timed {
        checksum,
        nanoseconds,
    })
}
