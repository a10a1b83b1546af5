//! Many questions to one sequence.

ghost use Rattle.aug_monoid.specs.Fresh.{IsFresh};

use crate::Numbered;
use crate::checksum::Checksum;
use crate::making::random_seq;
use crate::numbers::Numbers;
use crate::timed::{Timed, since};
use anyhow::Result;
use aug_monoid::Steps;
use pac_seq::SumFrom;
use std::alloc::Global;
use std::marker::Brand;
use std::rt::Clock;
use std::sync::ledger::{Blank, Ledger};
use std::time::Instant;

fn ask_for_items(alloc: Global, seq: &Numbered, numbers: &mut Numbers) -> u64 {
    let mut checksum = Checksum::new();
    for _ in 0..seq.size() {
        let place = numbers.below(seq.size());
        checksum.add(seq.at(alloc, place).unwrap_or(0));
    }
    checksum.sum()
}

/// Asks for as many items at random places as there are.
pub(crate) fn time_at(rt: &impl Clock, alloc: Global, size: u64, seed: u64) -> Result<Timed> {
    let mut numbers = Numbers::new(seed);
    let seq = random_seq(alloc, &mut numbers, size)?;
    let start = Instant::now(rt)?;
    let checksum = ask_for_items(alloc, &seq, &mut numbers);
    since(rt, start, checksum)
}

// Sums of runs of half of the items from random places in the first half on.
fn ask_for_sums<C: Ledger>(
    alloc: Global,
    seq: &Numbered,
    numbers: &mut Numbers,
    blank: Blank,
) -> u64
    requires { IsFresh C.name C.parts blank }
{
    let mut steps = Steps::<C>::start(blank);
    let mut checksum = Checksum::new();
    let half = seq.size() / 2;
    for _ in 0..(seq.size() / 10_000).max(1) {
        let totals = seq.reduce(alloc, numbers.below(half), half, &mut steps);
        checksum.add(totals.sum);
        checksum.add(totals.greatest);
    }
    checksum.sum()
}

fn answers(alloc: Global, seq: &Numbered, numbers: &mut Numbers) -> u64 {
    ask_for_sums::<Brand>(alloc, seq, numbers, Blank::new(1))
}

/// Asks for the sums of wide runs.
pub(crate) fn time_fold(rt: &impl Clock, alloc: Global, size: u64, seed: u64) -> Result<Timed> {
    let mut numbers = Numbers::new(seed);
    let seq = random_seq(alloc, &mut numbers, size)?;
    let start = Instant::now(rt)?;
    let checksum = answers(alloc, &seq, &mut numbers);
    since(rt, start, checksum)
}

// Asks where the sum of the items first is at least a random number up to their sum.
fn ask_for_places<C: Ledger>(
    alloc: Global,
    seq: &Numbered,
    numbers: &mut Numbers,
    blank: Blank,
) -> u64
    requires { IsFresh C.name C.parts blank }
{
    let mut steps = Steps::<C>::start(blank);
    let mut checksum = Checksum::new();
    let size = seq.size();
    let mean = seq.reduce(alloc, 0, size, &mut steps).sum / size.max(1);
    for _ in 0..size {
        let least = numbers.below(size).wrapping_mul(mean);
        let place = seq.first_where(alloc, &SumFrom { least }, &mut steps);
        checksum.add(place.unwrap_or(0));
    }
    checksum.sum()
}

fn places(alloc: Global, seq: &Numbered, numbers: &mut Numbers) -> u64 {
    ask_for_places::<Brand>(alloc, seq, numbers, Blank::new(1))
}

/// Asks as many times as there are items where their sum first is at least a random number.
pub(crate) fn time_first_where(
    rt: &impl Clock,
    alloc: Global,
    size: u64,
    seed: u64,
) -> Result<Timed> {
    let mut numbers = Numbers::new(seed);
    let seq = random_seq(alloc, &mut numbers, size)?;
    let start = Instant::now(rt)?;
    let checksum = places(alloc, &seq, &mut numbers);
    since(rt, start, checksum)
}
