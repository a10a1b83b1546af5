//! Readers that take snapshots while a writer publishes.

use crate::ends::{End, ends_of, longer, sum_of};
use crate::timed::Timed;
use crate::total::Total;
use anyhow::Result;
use aug_monoid::NoMemory;
use std::alloc::Global;
use std::marker::Sync;
use std::rt::Clock;
use std::sync::Wait;
use std::sync::atomic::{AtomicU64, Ordering};
use std::thread;
use std::thread::Threads;
use std::time::Instant;
use version_root::{Reader, Writer};

/// How many of the snapshots had no lower number than the one before.
fn read<R: Wait>(
    rt: &R,
    alloc: Global,
    mut reader: Reader<Total>,
    count: u64,
) -> Result<u64, NoMemory> {
    let mut last = 0;
    let mut risen = 0u64;
    for _ in 0..count {
        let number = reader.snapshot(rt, alloc)?.number();
        if number >= last {
            risen = risen.saturating_add(1);
        }
        last = number;
    }
    Ok(risen)
}

/// Publishes one version after another as long as a reader is at work.
fn publish<R: Threads + Wait + Sync>(
    rt: &R,
    alloc: Global,
    mut writer: Writer<Total>,
    at_work: &AtomicU64,
) -> Result<(), NoMemory> {
    for _ in rt.forever() {
        if at_work.load(Ordering::SeqCst) == 0 {
            break;
        }
        let version = longer(rt, alloc, &writer)?;
        writer.publish(rt, alloc, version)?;
        thread::yield_now();
    }
    Ok(())
}

fn run<R: Threads + Wait + Sync>(
    rt: &R,
    alloc: Global,
    end: End,
    count: u64,
    at_work: &AtomicU64,
) -> Result<u64, NoMemory> {
    match end {
        End::Reader(reader) => {
            let risen = read(rt, alloc, reader, count);
            at_work.fetch_sub(1, Ordering::SeqCst);
            risen
        }
        End::Writer(writer) => {
            publish(rt, alloc, writer, at_work)?;
            Ok(0)
        }
    }
}

/// Each reader takes so many snapshots beside a publishing writer. Answers how many of all had no lower number than the one before.
pub fn taken<R: Threads + Wait + Sync + Clock>(
    rt: &R,
    alloc: Global,
    readers: u32,
    count: u64,
) -> Result<Timed> {
    let ends = ends_of(alloc, readers)?;
    let at_work = AtomicU64::new(readers as u64);
    let began = Instant::now(rt)?;
    let answers = thread::map_vec(rt, ends, &|end| run(rt, alloc, end, count, &at_work))?;
    let nanoseconds = began.elapsed(rt)?.as_nanos();
    Ok(Timed {
        checksum: sum_of(answers)?,
        nanoseconds,
    })
}
