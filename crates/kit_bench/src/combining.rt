//! Operations on whole maps, each by a walk.

use crate::Map;
use crate::making::built;
use crate::numbers::Numbers;
use crate::timed::{Timed, checksum_of, made, since};
use anyhow::Result;
use std::alloc::{AllocError, Global};
use std::cmp::Ordering;
use std::collections::BTreeMap;
use std::collections::btree_map::Iter;
use std::iter::Peekable;
use std::rt::Clock;
use std::time::Instant;

/// What is made of two maps.
#[derive(Clone, Copy)]
pub(crate) enum Combined {
    Union,
    Intersection,
    Difference,
}

/// What is made of one map.
#[derive(Clone, Copy)]
pub(crate) enum Whole {
    /// The entries with even values.
    Filter,
    /// The sum of all keys and values.
    MapReduce,
    /// All entries, one after another.
    Walk,
}

/// What is ahead in a walk through a map.
type Ahead<'a> = Peekable<Iter<'a, u64, u64>>;

fn copied(entry: Option<(&u64, &u64)>) -> Option<(u64, u64)> {
    match entry {
        Some((key, val)) => Some((*key, *val)),
        None => None,
    }
}

/// The entry of two walks that comes next in a union, with the values of a key of both added.
fn least(near: &mut Ahead<'_>, far: &mut Ahead<'_>) -> Option<(u64, u64)> {
    let order = match (near.peek(), far.peek()) {
        (Some((key, _)), Some((other, _))) => key.cmp(other),
        (_, None) => Ordering::Less,
        (None, _) => Ordering::Greater,
    };
    match order {
        Ordering::Less => copied(near.next()),
        Ordering::Greater => copied(far.next()),
        Ordering::Equal => {
            let (key, val) = copied(near.next())?;
            let (_, other) = copied(far.next())?;
            Some((key, val.saturating_add(other)))
        }
    }
}

fn united(alloc: Global, a: &Map, b: &Map) -> Result<Map, AllocError> {
    let most = a.len() + b.len();
    let mut entries = Vec::with_capacity(alloc, most)?;
    let mut near = a.iter().peekable();
    let mut far = b.iter().peekable();
    for _ in 0..most {
        match least(&mut near, &mut far) {
            Some(entry) => entries.push(entry)?,
            None => break,
        }
    }
    BTreeMap::from_iter(alloc, entries)
}

fn intersected(alloc: Global, a: &Map, b: &Map) -> Result<Map, AllocError> {
    let mut entries = Vec::new(alloc);
    for (key, val) in a.iter() {
        if let Some(other) = b.get(key) {
            entries.push((*key, val.saturating_add(*other)))?;
        }
    }
    BTreeMap::from_iter(alloc, entries)
}

fn subtracted(alloc: Global, a: &Map, b: &Map) -> Result<Map, AllocError> {
    let mut entries = Vec::new(alloc);
    for (key, val) in a.iter() {
        if !b.contains_key(key) {
            entries.push((*key, *val))?;
        }
    }
    BTreeMap::from_iter(alloc, entries)
}

fn combine(alloc: Global, combined: Combined, a: &Map, b: &Map) -> Result<Map, AllocError> {
    match combined {
        Combined::Union => united(alloc, a, b),
        Combined::Intersection => intersected(alloc, a, b),
        Combined::Difference => subtracted(alloc, a, b),
    }
}

/// A map of as many random pairs, with keys below a bound.
fn random_map(
    alloc: Global,
    numbers: &mut Numbers,
    count: u64,
    bound: u64,
) -> Result<Map, AllocError> {
    let pairs = numbers.pairs(alloc, count, bound)?;
    built(alloc, &pairs)
}

/// Two maps, one of half the size and one of another size.
pub(crate) fn time_two<R: Clock>(
    rt: &R,
    alloc: Global,
    combined: Combined,
    size: u64,
    other: u64,
    seed: u64,
) -> Result<Timed> {
    let mut numbers = Numbers::new(seed);
    let half = size / 2;
    let a = random_map(alloc, &mut numbers, half, half * 2)?;
    let b = random_map(alloc, &mut numbers, other, half * 2)?;
    let start = Instant::now(rt)?;
    let map = combine(alloc, combined, &a, &b)?;
    made(rt, start, &map)
}

fn filtered(alloc: Global, map: &Map) -> Result<Map, AllocError> {
    let mut entries = Vec::new(alloc);
    for (key, val) in map.iter() {
        if *val % 2 == 0 {
            entries.push((*key, *val))?;
        }
    }
    BTreeMap::from_iter(alloc, entries)
}

fn sum_of(map: &Map) -> u64 {
    let mut sum: u64 = 0;
    for (key, val) in map.iter() {
        sum = sum.saturating_add(key.saturating_add(*val));
    }
    sum
}

pub(crate) fn time_one<R: Clock>(
    rt: &R,
    alloc: Global,
    whole: Whole,
    size: u64,
    seed: u64,
) -> Result<Timed> {
    let mut numbers = Numbers::new(seed);
    let map = random_map(alloc, &mut numbers, size, size.saturating_mul(2))?;
    let start = Instant::now(rt)?;
    match whole {
        Whole::Filter => {
            let even = filtered(alloc, &map)?;
            made(rt, start, &even)
        }
        Whole::MapReduce => since(rt, start, sum_of(&map)),
        Whole::Walk => since(rt, start, checksum_of(&map)),
    }
}
