//! Sequences that are changed in place.

use crate::Numbered;
use crate::making::random_seq;
use crate::numbers::Numbers;
use crate::timed::{Timed, made};
use anyhow::Result;
use aug_monoid::NoMemory;
use std::alloc::Global;
use std::rt::Clock;
use std::time::Instant;

fn pushed(alloc: Global, items: &[u64]) -> Result<Numbered, NoMemory> {
    let mut seq = Numbered::new();
    for item in items {
        seq.push_mut(alloc, *item)?;
    }
    Ok(seq)
}

/// Pushes numbers one by one.
pub(crate) fn time_push(rt: &impl Clock, alloc: Global, size: u64, seed: u64) -> Result<Timed> {
    let items = Numbers::new(seed).items(alloc, size)?;
    let start = Instant::now(rt)?;
    let seq = pushed(alloc, &items)?;
    made(rt, start, &seq)
}

fn set_many(alloc: Global, seq: &mut Numbered, numbers: &mut Numbers) -> Result<(), NoMemory> {
    for item in 0..seq.size() {
        let place = numbers.below(seq.size());
        if place < seq.size() {
            seq.set_mut(alloc, place, item)?;
        }
    }
    Ok(())
}

/// Sets as many items at random places as there are.
pub(crate) fn time_set(rt: &impl Clock, alloc: Global, size: u64, seed: u64) -> Result<Timed> {
    let mut numbers = Numbers::new(seed);
    let mut seq = random_seq(alloc, &mut numbers, size)?;
    let start = Instant::now(rt)?;
    set_many(alloc, &mut seq, &mut numbers)?;
    made(rt, start, &seq)
}
