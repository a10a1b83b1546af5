//! Maps whose keys are texts.

use crate::checksum::Checksum;
use crate::numbers::Numbers;
use crate::timed::{Timed, since};
use anyhow::Result;
use aug_monoid::{NoMemory, SumMax, Text};
use ord_map::OrdMap;
use std::alloc::Global;
use std::rt::Clock;
use std::time::Instant;

type Texts = OrdMap<SumMax<Text>>;

/// What is done to a map of texts.
#[derive(Clone, Copy)]
pub(crate) enum TextWork {
    /// One key after another is asked for.
    Gets,
    /// One entry after another is put in place.
    Puts,
}

fn text_of(alloc: Global, number: u64) -> Result<Text, NoMemory> {
    Ok(Text::from_string(format!(in alloc; "key {number}")?))
}

/// As many random pairs, with texts of numbers below a bound.
fn pairs(
    alloc: Global,
    numbers: &mut Numbers,
    count: u64,
    bound: u64,
) -> Result<Vec<(Text, u64)>, NoMemory> {
    let mut pairs = Vec::new(alloc);
    for (key, val) in numbers.pairs(alloc, count, bound)? {
        pairs.push((text_of(alloc, key)?, val))?;
    }
    Ok(pairs)
}

/// As many texts of random numbers below a bound.
fn keys(
    alloc: Global,
    numbers: &mut Numbers,
    count: u64,
    bound: u64,
) -> Result<Vec<Text>, NoMemory> {
    let mut keys = Vec::new(alloc);
    for _ in 0..count {
        keys.push(text_of(alloc, numbers.below(bound))?)?;
    }
    Ok(keys)
}

/// The map of pairs that are put one after another in place.
fn all_put(alloc: Global, pairs: Vec<(Text, u64)>) -> Result<Texts, NoMemory> {
    let mut map = Texts::new();
    for (key, val) in pairs {
        map.put(alloc, key, val)?;
    }
    Ok(map)
}

/// The checksum of the values at keys.
fn answers(alloc: Global, map: &Texts, keys: &[Text]) -> Result<u64, NoMemory> {
    let mut checksum = Checksum::new();
    for key in keys {
        checksum.add(map.get(alloc, key)?.unwrap_or(0));
    }
    Ok(checksum.sum())
}

pub(crate) fn time(
    rt: &impl Clock,
    alloc: Global,
    work: TextWork,
    size: u64,
    seed: u64,
) -> Result<Timed> {
    let mut numbers = Numbers::new(seed);
    let bound = size.saturating_mul(2);
    let pairs = pairs(alloc, &mut numbers, size, bound)?;
    match work {
        TextWork::Gets => {
            let map = all_put(alloc, pairs)?;
            let keys = keys(alloc, &mut numbers, size, bound)?;
            let start = Instant::now(rt)?;
            let checksum = answers(alloc, &map, &keys)?;
            since(rt, start, checksum)
        }
        TextWork::Puts => {
            let start = Instant::now(rt)?;
            let map = all_put(alloc, pairs)?;
            since(rt, start, map.len())
        }
    }
}
