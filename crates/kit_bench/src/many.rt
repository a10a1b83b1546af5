//! Many keys asked of one map, one after another.

use crate::Map;
use crate::making::built;
use crate::numbers::{Checksum, Numbers};
use crate::timed::{Timed, since};
use anyhow::Result;
use std::alloc::{AllocError, Global};
use std::rt::Clock;
use std::time::Instant;

/// The order in which keys are asked for.
#[derive(Clone, Copy)]
pub(crate) enum Asked {
    AtRandom,
    Sorted,
}

/// As many random keys as the map has had pairs.
fn keys_of(
    alloc: Global,
    numbers: &mut Numbers,
    size: u64,
    asked: Asked,
) -> Result<Vec<u64>, AllocError> {
    let mut keys = Vec::new(alloc);
    for _ in 0..size {
        keys.push(numbers.below(size.saturating_mul(2)))?;
    }
    if let Asked::Sorted = asked {
        keys.sort()?;
    }
    Ok(keys)
}

/// The checksum of the values at keys.
fn answers(map: &Map, keys: &[u64]) -> u64 {
    let mut checksum = Checksum::new();
    for key in keys {
        checksum.add(map.get(key).copied().unwrap_or(0));
    }
    checksum.sum()
}

pub(crate) fn time<R: Clock>(
    rt: &R,
    alloc: Global,
    asked: Asked,
    size: u64,
    seed: u64,
) -> Result<Timed> {
    let mut numbers = Numbers::new(seed);
    let pairs = numbers.pairs(alloc, size, size.saturating_mul(2))?;
    let map = built(alloc, &pairs)?;
    let keys = keys_of(alloc, &mut numbers, size, asked)?;
    let start = Instant::now(rt)?;
    let checksum = answers(&map, &keys);
    since(rt, start, checksum)
}
