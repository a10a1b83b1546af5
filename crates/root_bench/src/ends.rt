//! The ends of a root over a total, and what they do.
ghost use Rattle.std.specs.Prelude.{◌≡◌, IfOk};
ghost use Rattle.version_root.specs.Public.{IsPrefix};

use crate::total::Total;
use anyhow::{Result, bail};
use aug_monoid::NoMemory;
use fork_join::{Cut, FreeGate};
use std::alloc::Global;
use std::marker::Sync;
use std::thread::Threads;
use version_root::{Batch, Entry, Reader, Version, Writer, start};

#[derive(Drop)]
pub enum End {
    Reader(Reader<Total>),
    Writer(Writer<Total>),
}

/// The ends of a new root for so many readers, 1 to 64.
pub fn ends_of(alloc: Global, readers: u32) -> Result<Vec<End>> {
    if readers < 1 || readers > 64 {
        bail!("1 to 64 readers are wanted");
    }
    let (writer, all) = start(alloc, Total::new(0), readers)?;
    Ok(in_one(alloc, writer, all)?)
}

/// The readers, and then the writer.
fn in_one(
    alloc: Global,
    writer: Writer<Total>,
    readers: Vec<Reader<Total>>,
) -> Result<Vec<End>, NoMemory> {
    let mut ends = Vec::new(alloc);
    for reader in readers {
        ends.push(End::Reader(reader))?;
    }
    ends.push(End::Writer(writer))?;
    Ok(ends)
}

/// A batch of the number 1.
fn batch_of_one(alloc: Global) -> Result<Batch<u64>, NoMemory> {
    Batch::new(alloc, Vec::from_slice(alloc, &[1])?)
}

/// The writer's version with one more entry, which adds 1.
pub fn longer<R: Threads + Sync>(
    rt: &R,
    alloc: Global,
    writer: &Writer<Total>,
) -> Result<Version<Total>, NoMemory>
    ensures { IfOk result (λ version. (version.base ≡ writer.now.base) × IsPrefix writer.now.journal version.journal) }
{
    let entry = Entry {
        caller: 0,
        tag: 0,
        batch: batch_of_one(alloc)?,
    };
    writer
        .current()
        .extend(rt, alloc, &FreeGate, Cut::new(1, 1024), &[entry])
}

/// The sum of the ends' answers.
pub fn sum_of(answers: Vec<Result<u64, NoMemory>>) -> Result<u64, NoMemory> {
    let mut sum = 0u64;
    for answer in answers {
        sum = sum.saturating_add(answer?);
    }
    Ok(sum)
}
