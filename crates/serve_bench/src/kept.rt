//! Versions of one served map that are kept.

use crate::numbers::Numbers;
use crate::timed::{Timed, told};
use anyhow::{Context, Result};
use aug_monoid::NoMemory;
use batch_store::{Batch, Caller, Refused, Store, Version};
use fork_join::{FreeGate, On};
use op_runs::Op;
use serve_answers::MapAnswers;
use serve_text::Answers;
use served_map::Served;
use std::alloc::Global;
use std::marker::Sync;
use std::rt::Clock;
use std::sync::Wait;
use std::thread::Threads;
use std::time::Instant;

/// How many entries the map has, with the keys from 0 on.
const ENTRIES: u64 = 100_000;

/// How many of them each of the first batches puts.
const ENTRIES_AT_ONCE: usize = 1000;

/// What the values are below.
const VALUES: u64 = 1_000_000;

/// A store with its one caller.
#[derive(Drop)]
struct Alone {
    store: Store<Served>,
    caller: Caller<Served>,
}

fn start_alone(alloc: Global) -> Result<Alone> {
    let (store, callers) = Store::start(alloc, Served::new(), 1)?;
    let mut callers = callers;
    let caller = callers.pop().context("there is one caller")?;
    Ok(Alone { store, caller })
}

/// The entries that the map begins with.
fn entries(alloc: Global, numbers: &mut Numbers) -> Result<Vec<(u64, u64)>, NoMemory> {
    let mut pairs = Vec::new(alloc);
    for key in 0..ENTRIES {
        pairs.push((key, numbers.below(VALUES)))?;
    }
    Ok(pairs)
}

fn batch_of(alloc: Global, pairs: &[(u64, u64)]) -> Result<Batch<Op>, NoMemory> {
    let mut ops = Vec::with_capacity(alloc, pairs.len())?;
    for (key, val) in pairs {
        ops.push(Op::Put {
            key: *key,
            val: *val,
        })?;
    }
    Batch::new(alloc, ops)
}

impl Alone {
    /// Publishes a version with one more batch, which puts the pairs.
    fn publish<R: Threads + Wait + Sync>(
        &mut self,
        on: On<R, FreeGate>,
        alloc: Global,
        pairs: &[(u64, u64)],
    ) -> Result<(), NoMemory> {
        let batch = batch_of(alloc, pairs)?;
        if let Err(Refused { value: _, cause }) = self.caller.submit(0, batch) {
            return Err(cause);
        }
        self.store.turn(on.rt, alloc, on.gate, on.cut)?;
        Ok(())
    }

    /// Publishes one version after another until the map has the entries.
    fn fill<R: Threads + Wait + Sync>(
        &mut self,
        on: On<R, FreeGate>,
        alloc: Global,
        entries: &[(u64, u64)],
    ) -> Result<(), NoMemory> {
        for pairs in entries.chunks(ENTRIES_AT_ONCE) {
            self.publish(on, alloc, pairs)?;
        }
        Ok(())
    }

    /// Changes the values of so many keys, and takes a snapshot of the version that each change publishes. Each has a block of its
    /// own, since bench/in_use.c does not count large blocks.
    fn keep<R: Threads + Wait + Sync>(
        &mut self,
        on: On<R, FreeGate>,
        alloc: Global,
        numbers: &mut Numbers,
        count: usize,
    ) -> Result<Vec<Box<Version<Served>>>, NoMemory> {
        let mut kept = Vec::with_capacity(alloc, count)?;
        for _ in 0..count {
            let change = (numbers.below(ENTRIES), numbers.below(VALUES));
            self.publish(on, alloc, &[change])?;
            let version = self.caller.snapshot(on.rt, alloc)?;
            kept.push(Box::new(alloc, version)?)?;
        }
        Ok(kept)
    }

    /// The last line of the newest version.
    fn last<R: Wait>(&mut self, rt: &R, alloc: Global) -> Result<Vec<u8>, NoMemory> {
        let version = self.caller.snapshot(rt, alloc)?;
        let mut line = Vec::new(alloc);
        MapAnswers::write_last(alloc, version.state(), &mut line)?;
        Ok(line)
    }
}

/// Changes the values of so many keys one after another, and keeps each version.
pub(crate) fn time<R: Threads + Wait + Sync + Clock>(
    on: On<R, FreeGate>,
    alloc: Global,
    count: usize,
) -> Result<Timed> {
    let mut numbers = Numbers::new(1);
    let entries = entries(alloc, &mut numbers)?;
    let mut alone = start_alone(alloc)?;
    alone.fill(on, alloc, &entries)?;
    let start = Instant::now(on.rt)?;
    let kept = alone.keep(on, alloc, &mut numbers, count)?;
    let nanoseconds = start.elapsed(on.rt)?.as_nanos();
    let last = alone.last(on.rt, alloc)?;
    // The last large block: where it is freed, bench/in_use.c tells what all versions take.
    drop(entries);
    drop(kept);
    told(alloc, &last, nanoseconds)
}
