//! Sets of intervals.

ghost use Rattle.std.specs.Prelude.{IfOk};
ghost use Rattle.std.specs.List.{AllByRecursion};
ghost use Rattle.interval_map.specs.Intervals.{IsInterval};

use crate::checksum::Checksum;
use crate::numbers::Numbers;
use crate::timed::{Timed, since};
use anyhow::Result;
use aug_monoid::{NoMemory, Pair64};
use interval_map::Intervals;
use std::alloc::Global;
use std::rt::Clock;
use std::time::Instant;

/// Left ends are below this.
pub(crate) const WORD: u64 = 4294967296;

// An interval at random, which is shorter than the bound.
fn random_interval(numbers: &mut Numbers, bound: u64) -> Pair64
    ensures { IsInterval result }
{
    let first = numbers.below(WORD);
    let second = first.saturating_add(numbers.below(bound));
    Pair64 { first, second }
}

/// As many random intervals as are wanted, of which about four have a number.
pub(crate) fn random_intervals(
    alloc: Global,
    numbers: &mut Numbers,
    count: u64,
) -> Result<Vec<Pair64>, NoMemory>
    ensures { IfOk result (λ intervals. AllByRecursion IsInterval intervals.items) }
{
    let bound = (WORD / count.max(1)).saturating_mul(8);
    let mut intervals = Vec::new(alloc);
    for _ in 0..count {
        intervals.push(random_interval(numbers, bound))?;
    }
    Ok(intervals)
}

// The checksum of the ends of intervals.
fn add_ends(checksum: &mut Checksum, intervals: &[Pair64]) {
    for interval in intervals {
        checksum.add(interval.first);
        checksum.add(interval.second);
    }
}

// The checksum of all intervals of a set.
fn checksum_of(alloc: Global, set: &Intervals) -> Result<u64, NoMemory> {
    let mut checksum = Checksum::new();
    add_ends(&mut checksum, &set.overlap(alloc, 0, u64::MAX)?);
    Ok(checksum.sum())
}

/// Makes a set of many intervals at once.
pub(crate) fn time_at_once(rt: &impl Clock, alloc: Global, size: u64, seed: u64) -> Result<Timed> {
    let intervals = random_intervals(alloc, &mut Numbers::new(seed), size)?;
    let start = Instant::now(rt)?;
    let set = Intervals::from_intervals(alloc, &intervals)?;
    let nanoseconds = since(rt, start)?;
    Ok(Timed {
        checksum: checksum_of(alloc, &set)?,
        nanoseconds,
    })
}

fn added(alloc: Global, intervals: &[Pair64]) -> Result<Intervals, NoMemory> {
    let mut set = Intervals::new();
    for interval in intervals {
        if interval.first <= interval.second {
            set.add_mut(alloc, interval.first, interval.second)?;
        }
    }
    Ok(set)
}

/// Adds intervals one by one, in place.
pub(crate) fn time_added(rt: &impl Clock, alloc: Global, size: u64, seed: u64) -> Result<Timed> {
    let intervals = random_intervals(alloc, &mut Numbers::new(seed), size)?;
    let start = Instant::now(rt)?;
    let set = added(alloc, &intervals)?;
    let nanoseconds = since(rt, start)?;
    Ok(Timed {
        checksum: checksum_of(alloc, &set)?,
        nanoseconds,
    })
}

fn stabs(
    alloc: Global,
    set: &Intervals,
    numbers: &mut Numbers,
    count: u64,
) -> Result<u64, NoMemory> {
    let mut checksum = Checksum::new();
    for _ in 0..count {
        add_ends(&mut checksum, &set.stab(alloc, numbers.below(WORD))?);
    }
    Ok(checksum.sum())
}

/// Asks which intervals have a number, as often as there are intervals.
pub(crate) fn time_stab(rt: &impl Clock, alloc: Global, size: u64, seed: u64) -> Result<Timed> {
    let mut numbers = Numbers::new(seed);
    let intervals = random_intervals(alloc, &mut numbers, size)?;
    let set = Intervals::from_intervals(alloc, &intervals)?;
    let start = Instant::now(rt)?;
    let checksum = stabs(alloc, &set, &mut numbers, size)?;
    let nanoseconds = since(rt, start)?;
    Ok(Timed {
        checksum,
        nanoseconds,
    })
}
