//! Many entries put into one map at once.

use crate::Sums;
use crate::making::random_sums;
use crate::numbers::Numbers;
use crate::timed::{Timed, made};
use anyhow::Result;
use aug_monoid::{NoMemory, Second};
use std::alloc::Global;
use std::rt::Clock;
use std::time::Instant;

/// A tenth as many random pairs as the map was made of, put into it.
pub(crate) fn time_extend(rt: &impl Clock, alloc: Global, size: u64, seed: u64) -> Result<Timed> {
    let mut numbers = Numbers::new(seed);
    let keys = size.saturating_mul(2);
    let mut map = random_sums(alloc, &mut numbers, size, keys)?;
    let pairs = numbers.pairs(alloc, size / 10, keys)?;
    let start = Instant::now(rt)?;
    map.extend(alloc, &pairs)?;
    made(rt, start, map.iter(alloc))
}

/// 64 maps of as many random pairs in all.
fn parts(alloc: Global, numbers: &mut Numbers, size: u64) -> Result<Vec<Sums>, NoMemory> {
    let mut maps = Vec::new(alloc);
    for _ in 0..64 {
        maps.push(random_sums(alloc, numbers, size / 64, size.saturating_mul(2))?)?;
    }
    Ok(maps)
}

/// The union of 64 maps, of which a later one wins.
pub(crate) fn time_union_all(
    rt: &impl Clock,
    alloc: Global,
    size: u64,
    seed: u64,
) -> Result<Timed> {
    let maps = parts(alloc, &mut Numbers::new(seed), size)?;
    let start = Instant::now(rt)?;
    let all = Sums::union_all(alloc, &maps, &Second)?;
    made(rt, start, all.iter(alloc))
}
