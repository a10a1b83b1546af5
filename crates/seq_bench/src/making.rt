//! Sequences made of numbers, and of one another.

use crate::Numbered;
use crate::checksum::Checksum;
use crate::numbers::Numbers;
use crate::timed::{Timed, made, since};
use anyhow::Result;
use aug_monoid::NoMemory;
use fork_join::{FreeGate, On};
use std::alloc::Global;
use std::marker::Sync;
use std::rt::Clock;
use std::thread::Threads;
use std::time::Instant;

/// How many sequences there are of which pairs are appended.
const PIECES: u64 = 100;

/// A sequence of random numbers.
pub(crate) fn random_seq(
    alloc: Global,
    numbers: &mut Numbers,
    size: u64,
) -> Result<Numbered, NoMemory> {
    let items = numbers.items(alloc, size)?;
    Numbered::from_items(alloc, &items)
}

/// Makes a sequence of a slice.
pub(crate) fn time_build(rt: &impl Clock, alloc: Global, size: u64, seed: u64) -> Result<Timed> {
    let items = Numbers::new(seed).items(alloc, size)?;
    let start = Instant::now(rt)?;
    let seq = Numbered::from_items(alloc, &items)?;
    made(rt, start, &seq)
}

/// Turns a sequence round.
pub(crate) fn time_reverse<R: Threads + Clock + Sync>(
    on: On<R, FreeGate>,
    alloc: Global,
    size: u64,
    seed: u64,
) -> Result<Timed> {
    let seq = random_seq(alloc, &mut Numbers::new(seed), size)?;
    let start = Instant::now(on.rt)?;
    let turned = seq.reverse(on.rt, alloc, on.gate, on.cut)?;
    made(on.rt, start, &turned)
}

fn pieces_of(alloc: Global, numbers: &mut Numbers, size: u64) -> Result<Vec<Numbered>, NoMemory> {
    let mut pieces = Vec::new(alloc);
    for _ in 0..PIECES {
        pieces.push(random_seq(alloc, numbers, size / PIECES)?)?;
    }
    Ok(pieces)
}

/// Appends one piece to another, and adds an item of what it made to a checksum.
fn append_pair(
    alloc: Global,
    pieces: &[Numbered],
    numbers: &mut Numbers,
    checksum: &mut Checksum,
) -> Result<(), NoMemory> {
    let front = pieces.get(numbers.below(PIECES) as usize);
    let back = pieces.get(numbers.below(PIECES) as usize);
    if let (Some(front), Some(back)) = (front, back) {
        let seq = front.append(alloc, back)?;
        let item = seq.at(alloc, numbers.below(seq.size()));
        checksum.add(item.unwrap_or(0));
    }
    Ok(())
}

fn append_pairs(
    alloc: Global,
    pieces: &[Numbered],
    numbers: &mut Numbers,
    count: u64,
) -> Result<u64, NoMemory> {
    let mut checksum = Checksum::new();
    for _ in 0..count {
        append_pair(alloc, pieces, numbers, &mut checksum)?;
    }
    Ok(checksum.sum())
}

/// Appends random pairs of pieces, a tenth as many as all pieces have items.
pub(crate) fn time_append(rt: &impl Clock, alloc: Global, size: u64, seed: u64) -> Result<Timed> {
    let mut numbers = Numbers::new(seed);
    let pieces = pieces_of(alloc, &mut numbers, size)?;
    let start = Instant::now(rt)?;
    let checksum = append_pairs(alloc, &pieces, &mut numbers, size / 10)?;
    since(rt, start, checksum)
}
