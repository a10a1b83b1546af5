//! Maps made of pairs.

ghost use Rattle.aug_monoid.specs.Fresh.{IsFresh};

use crate::checksum::Checksum;
use crate::numbers::Numbers;
use crate::timed::Timed;
use crate::{Coded, Sums, Totaled};
use anyhow::Result;
use aug_monoid::{NoMemory, Steps};
use fork_join::{FreeGate, On};
use std::alloc::Global;
use std::marker::{Brand, Sync};
use std::rt::Clock;
use std::sync::ledger::{Blank, Ledger};
use std::thread::Threads;
use std::time::Instant;

/// How a map is made, and of which pairs.
#[derive(Clone, Copy)]
pub(crate) enum Making {
    /// By one put after another, each of which makes a new map.
    Puts,
    /// By one put after another in place.
    PutsInPlace,
    /// At once.
    Build,
    /// In blocks of gaps, of random keys. The harness reads its memory off the process.
    Coded,
    /// The same of the keys below a number, with small values.
    CodedRising,
}

/// A map in blocks of either kind.
#[derive(Drop)]
enum Made {
    Plain(Totaled),
    Coded(Coded),
}

fn put_all<C: Ledger>(
    alloc: Global,
    pairs: &[(u64, u64)],
    blank: Blank,
) -> Result<Totaled, NoMemory>
    requires { IsFresh C.name C.parts blank }
{
    let mut steps = Steps::<C>::start(blank);
    let mut map = Totaled::empty();
    for (key, val) in pairs {
        map = map.put(alloc, *key, *val, &mut steps)?;
    }
    Ok(map)
}

fn put_all_in_place<C: Ledger>(
    alloc: Global,
    pairs: &[(u64, u64)],
    blank: Blank,
) -> Result<Totaled, NoMemory>
    requires { IsFresh C.name C.parts blank }
{
    let mut steps = Steps::<C>::start(blank);
    let mut map = Totaled::empty();
    for (key, val) in pairs {
        map.put_mut(alloc, *key, *val, &mut steps)?;
    }
    Ok(map)
}

/// The map of pairs that are put one after another in place.
fn all_put_in_place(alloc: Global, pairs: &[(u64, u64)]) -> Result<Totaled, NoMemory> {
    put_all_in_place::<Brand>(alloc, pairs, Blank::new(1))
}

/// The map of pairs that are put one after another.
pub(crate) fn all_put(alloc: Global, pairs: &[(u64, u64)]) -> Result<Totaled, NoMemory> {
    put_all::<Brand>(alloc, pairs, Blank::new(1))
}

/// The map of pairs that is made at once.
pub(crate) fn built<R: Threads + Sync>(
    on: On<R, FreeGate>,
    alloc: Global,
    pairs: &[(u64, u64)],
) -> Result<Totaled, NoMemory> {
    Totaled::build(on.rt, alloc, on.gate, on.cut, pairs)
}

/// The map of as many random pairs with keys below a bound, by the users' call.
pub(crate) fn random_sums(
    alloc: Global,
    numbers: &mut Numbers,
    count: u64,
    bound: u64,
) -> Result<Sums, NoMemory> {
    let pairs = numbers.pairs(alloc, count, bound)?;
    Sums::from_pairs(alloc, &pairs)
}

fn make<R: Threads + Sync>(
    on: On<R, FreeGate>,
    alloc: Global,
    making: Making,
    pairs: &[(u64, u64)],
) -> Result<Made, NoMemory> {
    match making {
        Making::Puts => Ok(Made::Plain(all_put(alloc, pairs)?)),
        Making::PutsInPlace => Ok(Made::Plain(all_put_in_place(alloc, pairs)?)),
        Making::Build => Ok(Made::Plain(built(on, alloc, pairs)?)),
        Making::Coded | Making::CodedRising => {
            Ok(Made::Coded(Coded::build(on.rt, alloc, on.gate, on.cut, pairs)?))
        }
    }
}

fn pairs_for(
    alloc: Global,
    making: Making,
    size: u64,
    seed: u64,
) -> Result<Vec<(u64, u64)>, NoMemory> {
    let mut numbers = Numbers::new(seed);
    match making {
        Making::Puts | Making::PutsInPlace | Making::Build => {
            numbers.pairs(alloc, size, size.saturating_mul(2))
        }
        Making::Coded => numbers.wide_pairs(alloc, size),
        Making::CodedRising => rising_pairs(alloc, size),
    }
}

fn rising_pairs(alloc: Global, count: u64) -> Result<Vec<(u64, u64)>, NoMemory> {
    let mut pairs = Vec::new(alloc);
    for key in 0..count {
        pairs.push((key, key % 100))?;
    }
    Ok(pairs)
}

/// What is told of a map: its entries where it was built, and else their number.
fn told(alloc: Global, making: Making, made: &Made) -> Result<u64, NoMemory> {
    match made {
        Made::Plain(map) => match making {
            Making::Build => Checksum::of(map.cursor(alloc)),
            _ => Ok(map.size()),
        },
        Made::Coded(map) => Ok(map.size()),
    }
}

pub(crate) fn time<R: Threads + Clock + Sync>(
    on: On<R, FreeGate>,
    alloc: Global,
    making: Making,
    size: u64,
    seed: u64,
) -> Result<Timed> {
    let pairs = pairs_for(alloc, making, size, seed)?;
    let start = Instant::now(on.rt)?;
    let made = make(on, alloc, making, &pairs)?;
    let nanoseconds = start.elapsed(on.rt)?.as_nanos();
    Ok(Timed {
        checksum: told(alloc, making, &made)?,
        nanoseconds,
    })
}
