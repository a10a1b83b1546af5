//! Many questions to one map.

ghost use Rattle.aug_monoid.specs.Fresh.{IsFresh};

use crate::Totaled;
use crate::checksum::Checksum;
use crate::making::{all_put, built};
use crate::numbers::Numbers;
use crate::timed::{Timed, since};
use anyhow::Result;
use aug_monoid::{NoMemory, Steps};
use fork_join::{FreeGate, On};
use std::alloc::Global;
use std::marker::{Brand, Sync};
use std::rt::Clock;
use std::sync::ledger::{Blank, Ledger};
use std::thread::Threads;
use std::time::Instant;

/// What is asked of a map, about one random number after another.
#[derive(Clone, Copy)]
pub(crate) enum Question {
    /// The value at a key.
    Get,
    /// The totals from a key on, of a range as wide as the map has entries.
    RangeFold,
    /// How many keys are below a key.
    Rank,
    /// The key at a place.
    Select,
    /// The keys on both sides of a key.
    Neighbours,
}

/// How often a question is asked of a map of a size, and below which bound its random numbers are.
#[derive(Drop)]
struct Round {
    count: u64,
    bound: u64,
}

fn round_of(question: Question, size: u64) -> Round {
    let few = (size / 10_000).max(1);
    let keys = size.saturating_mul(2);
    match question {
        Question::Get | Question::Neighbours => Round {
            count: size,
            bound: keys,
        },
        Question::RangeFold => Round {
            count: few,
            bound: size,
        },
        Question::Rank => Round {
            count: few,
            bound: keys,
        },
        Question::Select => Round {
            count: few,
            bound: size / 2,
        },
    }
}

fn key_of(entry: Option<(u64, u64)>) -> u64 {
    match entry {
        Some((key, _)) => key,
        None => 0,
    }
}

fn add_value<C: Ledger>(
    alloc: Global,
    map: &Totaled,
    key: u64,
    checksum: &mut Checksum,
    steps: &mut Steps<C>,
) -> Result<(), NoMemory> {
    checksum.add(map.get(alloc, &key, steps)?.unwrap_or(0));
    Ok(())
}

fn add_range<C: Ledger>(
    alloc: Global,
    map: &Totaled,
    lo: u64,
    hi: u64,
    checksum: &mut Checksum,
    steps: &mut Steps<C>,
) -> Result<(), NoMemory> {
    let totals = map.aug_range(alloc, &lo, &hi, steps)?;
    checksum.add(totals.sum);
    checksum.add(totals.greatest);
    Ok(())
}

fn add_place(
    alloc: Global,
    map: &Totaled,
    at: u64,
    checksum: &mut Checksum,
) -> Result<(), NoMemory> {
    checksum.add(key_of(map.select(alloc, at)?));
    Ok(())
}

fn add_sides<C: Ledger>(
    alloc: Global,
    map: &Totaled,
    key: u64,
    checksum: &mut Checksum,
    steps: &mut Steps<C>,
) -> Result<(), NoMemory> {
    checksum.add(key_of(map.next(alloc, &key, steps)?));
    checksum.add(key_of(map.prev(alloc, &key, steps)?));
    Ok(())
}

/// Adds the answer to a question about a number to a checksum.
fn ask<C: Ledger>(
    alloc: Global,
    map: &Totaled,
    question: Question,
    number: u64,
    width: u64,
    checksum: &mut Checksum,
    steps: &mut Steps<C>,
) -> Result<(), NoMemory> {
    match question {
        Question::Get => add_value(alloc, map, number, checksum, steps),
        Question::RangeFold => {
            let hi = number.saturating_add(width);
            add_range(alloc, map, number, hi, checksum, steps)
        }
        Question::Rank => {
            checksum.add(map.rank(&number, steps));
            Ok(())
        }
        Question::Select => add_place(alloc, map, number, checksum),
        Question::Neighbours => add_sides(alloc, map, number, checksum, steps),
    }
}

fn ask_all<C: Ledger>(
    alloc: Global,
    map: &Totaled,
    question: Question,
    numbers: &mut Numbers,
    size: u64,
    blank: Blank,
) -> Result<u64, NoMemory>
    requires { IsFresh C.name C.parts blank }
{
    let mut steps = Steps::<C>::start(blank);
    let mut checksum = Checksum::new();
    let round = round_of(question, size);
    for _ in 0..round.count {
        let number = numbers.below(round.bound);
        ask(
            alloc,
            map,
            question,
            number,
            size,
            &mut checksum,
            &mut steps,
        )?;
    }
    Ok(checksum.sum())
}

fn answers(
    alloc: Global,
    map: &Totaled,
    question: Question,
    numbers: &mut Numbers,
    size: u64,
) -> Result<u64, NoMemory> {
    ask_all::<Brand>(alloc, map, question, numbers, size, Blank::new(1))
}

/// The map that is asked. Gets are timed in one that puts made.
fn asked_map<R: Threads + Sync>(
    on: On<R, FreeGate>,
    alloc: Global,
    question: Question,
    pairs: &[(u64, u64)],
) -> Result<Totaled, NoMemory> {
    match question {
        Question::Get => all_put(alloc, pairs),
        _ => built(on, alloc, pairs),
    }
}

pub(crate) fn time<R: Threads + Clock + Sync>(
    on: On<R, FreeGate>,
    alloc: Global,
    question: Question,
    size: u64,
    seed: u64,
) -> Result<Timed> {
    let mut numbers = Numbers::new(seed);
    let pairs = numbers.pairs(alloc, size, size.saturating_mul(2))?;
    let map = asked_map(on, alloc, question, &pairs)?;
    let start = Instant::now(on.rt)?;
    let checksum = answers(alloc, &map, question, &mut numbers, size)?;
    since(on.rt, start, checksum)
}
