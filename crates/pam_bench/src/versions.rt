//! What has changed between two versions of a map.

use crate::Sums;
use crate::checksum::Checksum;
use crate::making::random_sums;
use crate::numbers::Numbers;
use crate::timed::Timed;
use anyhow::Result;
use aug_monoid::{NoMemory, Share};
use ord_map::Change;
use std::alloc::Global;
use std::rt::Clock;
use std::time::Instant;

/// The map with ten random pairs put, one after another.
fn changed(alloc: Global, map: &Sums, numbers: &mut Numbers, bound: u64) -> Result<Sums, NoMemory> {
    let mut newer = map.share(alloc)?;
    for (key, val) in numbers.pairs(alloc, 10, bound)? {
        newer.put(alloc, key, val)?;
    }
    Ok(newer)
}

/// Adds the key of a change, with the value before and after it, each 0 where there is none.
fn add_change(checksum: &mut Checksum, change: &Change<u64, u64>) {
    let (key, old, new) = match change {
        Change::Added { key, val } => (*key, 0, *val),
        Change::Removed { key, val } => (*key, *val, 0),
        Change::Updated { key, old, new } => (*key, *old, *new),
    };
    checksum.add(key);
    checksum.add(old);
    checksum.add(new);
}

fn checksum_of(changes: &[Change<u64, u64>]) -> u64 {
    let mut checksum = Checksum::new();
    for change in changes {
        add_change(&mut checksum, change);
    }
    checksum.sum()
}

pub(crate) fn time(rt: &impl Clock, alloc: Global, size: u64, seed: u64) -> Result<Timed> {
    let mut numbers = Numbers::new(seed);
    let keys = size.saturating_mul(2);
    let map = random_sums(alloc, &mut numbers, size, keys)?;
    let newer = changed(alloc, &map, &mut numbers, keys)?;
    let start = Instant::now(rt)?;
    let changes = map.diff(alloc, &newer)?;
    let nanoseconds = start.elapsed(rt)?.as_nanos();
    Ok(Timed {
        checksum: checksum_of(&changes),
        nanoseconds,
    })
}
