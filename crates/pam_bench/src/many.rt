//! Many keys asked of one map at once.

use crate::Totaled;
use crate::checksum::Checksum;
use crate::making::built;
use crate::numbers::Numbers;
use crate::timed::{Timed, since};
use anyhow::Result;
use aug_monoid::NoMemory;
use fork_join::{FreeGate, On};
use std::alloc::Global;
use std::marker::Sync;
use std::rt::Clock;
use std::thread::Threads;
use std::time::Instant;

/// The order in which keys are asked for.
#[derive(Clone, Copy)]
pub(crate) enum Asked {
    AtRandom,
    Sorted,
}

/// As many random keys as the map has had pairs.
fn keys_of(
    alloc: Global,
    numbers: &mut Numbers,
    size: u64,
    asked: Asked,
) -> Result<Vec<u64>, NoMemory> {
    let mut keys = Vec::new(alloc);
    for _ in 0..size {
        keys.push(numbers.below(size.saturating_mul(2)))?;
    }
    if let Asked::Sorted = asked {
        keys.sort()?;
    }
    Ok(keys)
}

/// The checksum of the values at keys.
fn answers(alloc: Global, map: &Totaled, keys: &[u64]) -> Result<u64, NoMemory> {
    let mut checksum = Checksum::new();
    for val in map.get_many(alloc, keys)? {
        checksum.add(val.unwrap_or(0));
    }
    Ok(checksum.sum())
}

pub(crate) fn time<R: Threads + Clock + Sync>(
    on: On<R, FreeGate>,
    alloc: Global,
    asked: Asked,
    size: u64,
    seed: u64,
) -> Result<Timed> {
    let mut numbers = Numbers::new(seed);
    let pairs = numbers.pairs(alloc, size, size.saturating_mul(2))?;
    let map = built(on, alloc, &pairs)?;
    let keys = keys_of(alloc, &mut numbers, size, asked)?;
    let start = Instant::now(on.rt)?;
    let checksum = answers(alloc, &map, &keys)?;
    since(on.rt, start, checksum)
}
