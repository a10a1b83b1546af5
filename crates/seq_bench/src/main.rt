//! `seq_bench OPERATION SIZE SEED [WORKERS]`: does one operation on sequences of seeded random numbers, with this many workers
//! (1 where it is not said). It writes the checksum of the answer to standard output, and to standard error the nanoseconds that
//! the operation took, without making its input.
//!
//! Tests: its stored run. Wrong bodies: none; it promises nothing but to be safe.
#![tactic(auto)]

mod asking;
mod changing;
mod checksum;
mod making;
mod numbers;
mod timed;

use anyhow::{Context, Result, bail};
use fork_join::{Cut, FreeGate, On};
use pac_seq::{Seq, SumTop};
use std::alloc::Global;
use std::env;
use std::marker::Sync;
use std::rt::Clock;
use std::thread::Threads;
use timed::Timed;

/// A sequence of numbers with their sum and the greatest of them.
pub(crate) type Numbered = Seq<SumTop, 32>;

// How the work of whole sequences is cut for a number of workers.
fn cut_of(workers: u32) -> Result<Cut> {
    if workers < 1 || 64 < workers {
        bail!("workers are 1 to 64");
    }
    Ok(Cut::new(workers, 1024))
}

// Does the operation of a name.
fn run<R: Threads + Clock + Sync>(
    on: On<R, FreeGate>,
    alloc: Global,
    name: &str,
    size: u64,
    seed: u64,
) -> Result<Timed> {
    match name {
        "build" => making::time_build(on.rt, alloc, size, seed),
        "push" => changing::time_push(on.rt, alloc, size, seed),
        "set" => changing::time_set(on.rt, alloc, size, seed),
        "append" => making::time_append(on.rt, alloc, size, seed),
        "reverse" => making::time_reverse(on, alloc, size, seed),
        "at" => asking::time_at(on.rt, alloc, size, seed),
        "first_where" => asking::time_first_where(on.rt, alloc, size, seed),
        "fold" => asking::time_fold(on.rt, alloc, size, seed),
        _ => bail!("no such operation"),
    }
}

fn main(rt: HostRuntime) -> Result<()> {
    let mut words = env::args(&rt)?.skip(1);
    let name = words.next().context("an operation is wanted")?;
    let size = words.next().context("a size is wanted")?;
    let seed = words.next().context("a seed is wanted")?;
    let workers = match words.next() {
        Some(workers) => workers.parse()?,
        None => 1,
    };
    let on = On {
        rt: &rt,
        gate: &FreeGate,
        cut: cut_of(workers)?,
    };
    let timed = run(on, rt.alloc(), &name, size.parse()?, seed.parse()?)?;
    println!(rt; "{}", timed.checksum)?;
    eprintln!(rt; "{}", timed.nanoseconds)?;
    Ok(())
}
