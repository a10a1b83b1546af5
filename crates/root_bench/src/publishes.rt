//! A writer that publishes while readers take snapshots.

use crate::ends::{End, ends_of, longer, sum_of};
use crate::timed::Timed;
use crate::total::Total;
use anyhow::Result;
use aug_monoid::NoMemory;
use std::alloc::Global;
use std::marker::Sync;
use std::rt::Clock;
use std::sync::Wait;
use std::sync::atomic::{AtomicU64, Ordering};
use std::thread;
use std::thread::Threads;
use std::time::Instant;
use version_root::{Reader, Writer};

/// Takes one snapshot after another as long as the writer is at work.
fn read_beside<R: Wait>(
    rt: &R,
    alloc: Global,
    mut reader: Reader<Total>,
    at_work: &AtomicU64,
) -> Result<(), NoMemory> {
    for _ in rt.forever() {
        if at_work.load(Ordering::SeqCst) == 0 {
            break;
        }
        reader.snapshot(rt, alloc)?;
    }
    Ok(())
}

/// Publishes so many versions, and answers the number of the last one.
fn publish_all<R: Threads + Wait + Sync>(
    rt: &R,
    alloc: Global,
    mut writer: Writer<Total>,
    count: u64,
) -> Result<u64, NoMemory> {
    for _ in 0..count {
        let version = longer(rt, alloc, &writer)?;
        writer.publish(rt, alloc, version)?;
    }
    Ok(writer.current().number())
}

fn run<R: Threads + Wait + Sync>(
    rt: &R,
    alloc: Global,
    end: End,
    count: u64,
    at_work: &AtomicU64,
) -> Result<u64, NoMemory> {
    match end {
        End::Reader(reader) => {
            read_beside(rt, alloc, reader, at_work)?;
            Ok(0)
        }
        End::Writer(writer) => {
            let number = publish_all(rt, alloc, writer, count);
            at_work.store(0, Ordering::SeqCst);
            number
        }
    }
}

/// The writer publishes so many versions beside readers that take snapshots all the time. Answers the number of the last version.
pub fn made<R: Threads + Wait + Sync + Clock>(
    rt: &R,
    alloc: Global,
    readers: u32,
    count: u64,
) -> Result<Timed> {
    let mut ends = ends_of(alloc, readers)?;
    // The readers wait for the writer, so it goes first where there is but one thread.
    ends.reverse();
    let at_work = AtomicU64::new(1);
    let began = Instant::now(rt)?;
    let answers = thread::map_vec(rt, ends, &|end| run(rt, alloc, end, count, &at_work))?;
    let nanoseconds = began.elapsed(rt)?.as_nanos();
    Ok(Timed {
        checksum: sum_of(answers)?,
        nanoseconds,
    })
}
