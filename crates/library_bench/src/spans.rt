//! Maps from intervals to values.

ghost use Rattle.std.specs.Prelude.{IfOk};
ghost use Rattle.std.specs.Ordering.{nat_cmp};
ghost use Rattle.interval_map.specs.IntervalMaps.{AreIntervals};

use crate::checksum::Checksum;
use crate::intervals::{WORD, random_intervals};
use crate::numbers::Numbers;
use crate::timed::{Timed, since};
use anyhow::Result;
use aug_monoid::{NoMemory, Pair64, Span};
use interval_map::IntervalMap;
use std::alloc::Global;
use std::rt::Clock;
use std::time::Instant;

type Entry = (Span<u64>, u64);

/// Each interval with its length.
fn entries_of(alloc: Global, intervals: &[Pair64]) -> Result<Vec<Entry>, NoMemory>
    ensures { IfOk result (λ entries. AreIntervals nat_cmp entries.items) }
{
    let mut entries = Vec::new(alloc);
    for interval in intervals {
        let (left, right) = (interval.first, interval.second);
        if left <= right {
            entries.push((Span { left, right }, right - left))?;
        }
    }
    Ok(entries)
}

// The checksum of the entries of intervals.
fn add_entries(checksum: &mut Checksum, entries: &[Entry]) {
    for (span, val) in entries {
        checksum.add(span.left);
        checksum.add(span.right);
        checksum.add(*val);
    }
}

// The checksum of all entries of a map.
fn checksum_of(alloc: Global, map: &IntervalMap<u64, u64>) -> Result<u64, NoMemory> {
    let mut checksum = Checksum::new();
    add_entries(&mut checksum, &map.to_vec(alloc)?);
    Ok(checksum.sum())
}

/// Makes a map of many intervals at once.
pub(crate) fn time_at_once(rt: &impl Clock, alloc: Global, size: u64, seed: u64) -> Result<Timed> {
    let intervals = random_intervals(alloc, &mut Numbers::new(seed), size)?;
    let entries = entries_of(alloc, &intervals)?;
    let start = Instant::now(rt)?;
    let map = IntervalMap::from_pairs(alloc, &entries)?;
    let nanoseconds = since(rt, start)?;
    Ok(Timed {
        checksum: checksum_of(alloc, &map)?,
        nanoseconds,
    })
}

fn inserted(alloc: Global, intervals: &[Pair64]) -> Result<IntervalMap<u64, u64>, NoMemory> {
    let mut map = IntervalMap::new();
    for interval in intervals {
        let (left, right) = (interval.first, interval.second);
        if left <= right {
            map.insert(alloc, left, right, right - left)?;
        }
    }
    Ok(map)
}

/// Inserts intervals one by one, in place.
pub(crate) fn time_inserted(rt: &impl Clock, alloc: Global, size: u64, seed: u64) -> Result<Timed> {
    let intervals = random_intervals(alloc, &mut Numbers::new(seed), size)?;
    let start = Instant::now(rt)?;
    let map = inserted(alloc, &intervals)?;
    let nanoseconds = since(rt, start)?;
    Ok(Timed {
        checksum: checksum_of(alloc, &map)?,
        nanoseconds,
    })
}

fn overlaps(
    alloc: Global,
    map: &IntervalMap<u64, u64>,
    numbers: &mut Numbers,
    count: u64,
) -> Result<u64, NoMemory> {
    let width = WORD / count.max(1);
    let mut checksum = Checksum::new();
    for _ in 0..count {
        let lo = numbers.below(WORD);
        let hits = map.overlapping(alloc, &lo, &lo.saturating_add(width))?;
        add_entries(&mut checksum, &hits);
    }
    Ok(checksum.sum())
}

/// Asks for the entries of the intervals that have a part in a short one, as often as there are intervals.
pub(crate) fn time_overlapping(
    rt: &impl Clock,
    alloc: Global,
    size: u64,
    seed: u64,
) -> Result<Timed> {
    let mut numbers = Numbers::new(seed);
    let intervals = random_intervals(alloc, &mut numbers, size)?;
    let map = IntervalMap::from_pairs(alloc, &entries_of(alloc, &intervals)?)?;
    let start = Instant::now(rt)?;
    let checksum = overlaps(alloc, &map, &mut numbers, size)?;
    let nanoseconds = since(rt, start)?;
    Ok(Timed {
        checksum,
        nanoseconds,
    })
}
