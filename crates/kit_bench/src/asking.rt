//! Many questions to one map.

use crate::Map;
use crate::making::built;
use crate::numbers::{Checksum, Numbers};
use crate::timed::{Timed, since};
use anyhow::Result;
use std::alloc::Global;
use std::rt::Clock;
use std::time::Instant;

/// What is asked of a map, about one random number after another.
#[derive(Clone, Copy)]
pub(crate) enum Question {
    /// The value at a key.
    Get,
    /// The sum and the greatest of the values from a key on, of a range as wide as the map has entries, by a walk.
    RangeFold,
    /// How many keys are below a key, by a walk.
    Rank,
    /// The key at a place, by a walk.
    Select,
    /// The keys on both sides of a key.
    Neighbours,
}

impl Question {
    /// How often it is asked of a map of a size.
    fn count(self, size: u64) -> u64 {
        match self {
            Question::Get | Question::Neighbours => size,
            Question::RangeFold | Question::Rank | Question::Select => (size / 10_000).max(1),
        }
    }

    /// Below which bound its random numbers are.
    fn bound(self, size: u64) -> u64 {
        match self {
            Question::Get | Question::Rank | Question::Neighbours => size.saturating_mul(2),
            Question::RangeFold => size,
            Question::Select => size / 2,
        }
    }
}

fn key_of(entry: Option<(&u64, &u64)>) -> u64 {
    match entry {
        Some((key, _)) => *key,
        None => 0,
    }
}

fn add_range(map: &Map, lo: u64, hi: u64, checksum: &mut Checksum) {
    let mut sum: u64 = 0;
    let mut greatest = 0;
    if lo <= hi {
        for (_, val) in map.range(lo..=hi) {
            sum = sum.saturating_add(*val);
            greatest = (*val).max(greatest);
        }
    }
    checksum.add(sum);
    checksum.add(greatest);
}

fn add_sides(map: &Map, key: u64, checksum: &mut Checksum) {
    checksum.add(key_of(map.range(key.saturating_add(1)..).next()));
    checksum.add(key_of(map.range(..key).next_back()));
}

/// Adds the answer to a question about a number to a checksum.
fn ask(map: &Map, question: Question, number: u64, width: u64, checksum: &mut Checksum) {
    match question {
        Question::Get => checksum.add(map.get(&number).copied().unwrap_or(0)),
        Question::RangeFold => add_range(map, number, number.saturating_add(width), checksum),
        Question::Rank => checksum.add(map.range(..number).count() as u64),
        Question::Select => checksum.add(key_of(map.iter().nth(number as usize))),
        Question::Neighbours => add_sides(map, number, checksum),
    }
}

fn answers(map: &Map, question: Question, numbers: &mut Numbers, size: u64) -> u64 {
    let mut checksum = Checksum::new();
    for _ in 0..question.count(size) {
        let number = numbers.below(question.bound(size));
        ask(map, question, number, size, &mut checksum);
    }
    checksum.sum()
}

pub(crate) fn time<R: Clock>(
    rt: &R,
    alloc: Global,
    question: Question,
    size: u64,
    seed: u64,
) -> Result<Timed> {
    let mut numbers = Numbers::new(seed);
    let pairs = numbers.pairs(alloc, size, size.saturating_mul(2))?;
    let map = built(alloc, &pairs)?;
    let start = Instant::now(rt)?;
    let checksum = answers(&map, question, &mut numbers, size);
    since(rt, start, checksum)
}
