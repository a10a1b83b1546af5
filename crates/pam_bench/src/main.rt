//! `pam_bench OPERATION SIZE SEED [WORKERS]`: does one operation of the library on seeded random entries, with this many workers
//! (1 where it is not said). It writes the checksum of the answer to standard output, and to standard error the nanoseconds that
//! the operation took, without making its input.
//!
//! Tests: its stored run. Wrong bodies: none; it promises nothing but to be safe.
#![tactic(auto)]

mod asking;
mod checksum;
mod combining;
mod making;
mod many;
mod merging;
mod numbers;
mod ranges;
mod texts;
mod timed;
mod versions;

use anyhow::{Context, Result, bail};
use asking::Question;
use aug_map::{CodedMap, PlainMap};
use aug_monoid::SumMax;
use combining::{Combined, Whole, time_one, time_two};
use fork_join::{Cut, FreeGate, On};
use making::Making;
use many::Asked;
use ord_map::OrdMap;
use std::alloc::Global;
use std::env;
use std::marker::Sync;
use std::rt::Clock;
use std::thread::Threads;
use texts::TextWork;
use timed::Timed;

/// A map with the totals of its values, in plain blocks.
pub(crate) type Totaled = PlainMap<SumMax<u64>>;

/// The same as users see it.
pub(crate) type Sums = OrdMap<SumMax<u64>>;

/// The same in blocks of gaps.
pub(crate) type Coded = CodedMap<SumMax<u64>>;

// How the work of whole maps is cut for a number of workers.
fn cut_of(workers: u32) -> Result<Cut> {
    if workers < 1 || 64 < workers {
        bail!("workers are 1 to 64");
    }
    Ok(Cut::new(workers, 1024))
}

// Does the operation of a name.
fn run<R: Threads + Clock + Sync>(
    on: On<R, FreeGate>,
    alloc: Global,
    name: &str,
    size: u64,
    seed: u64,
) -> Result<Timed> {
    match name {
        "put" => making::time(on, alloc, Making::Puts, size, seed),
        "put_mut" => making::time(on, alloc, Making::PutsInPlace, size, seed),
        "build" => making::time(on, alloc, Making::Build, size, seed),
        "coded" => making::time(on, alloc, Making::Coded, size, seed),
        "coded_rising" => making::time(on, alloc, Making::CodedRising, size, seed),
        "union" => time_two(on, alloc, Combined::Union, size, size / 2, seed),
        "union_small" => time_two(on, alloc, Combined::Union, size, size / 2000, seed),
        "intersect" => time_two(on, alloc, Combined::Intersection, size, size / 2, seed),
        "difference" => time_two(on, alloc, Combined::Difference, size, size / 2, seed),
        "filter" => time_one(on, alloc, Whole::Filter, size, seed),
        "map_reduce" => time_one(on, alloc, Whole::MapReduce, size, seed),
        "walk" => time_one(on, alloc, Whole::Walk, size, seed),
        "get" => asking::time(on, alloc, Question::Get, size, seed),
        "get_many" => many::time(on, alloc, Asked::AtRandom, size, seed),
        "get_sorted" => many::time(on, alloc, Asked::Sorted, size, seed),
        "range_fold" => asking::time(on, alloc, Question::RangeFold, size, seed),
        "rank" => asking::time(on, alloc, Question::Rank, size, seed),
        "select" => asking::time(on, alloc, Question::Select, size, seed),
        "neighbours" => asking::time(on, alloc, Question::Neighbours, size, seed),
        _ => run_alone(on.rt, alloc, name, size, seed),
    }
}

// Does the operation of a name that is a call of `OrdMap` on one thread.
fn run_alone(rt: &impl Clock, alloc: Global, name: &str, size: u64, seed: u64) -> Result<Timed> {
    match name {
        "ranges" => ranges::time(rt, alloc, size, seed),
        "extend" => merging::time_extend(rt, alloc, size, seed),
        "union_all" => merging::time_union_all(rt, alloc, size, seed),
        "diff" => versions::time(rt, alloc, size, seed),
        "get_text" => texts::time(rt, alloc, TextWork::Gets, size, seed),
        "put_text" => texts::time(rt, alloc, TextWork::Puts, size, seed),
        _ => bail!("no such operation"),
    }
}

fn main(rt: HostRuntime) -> Result<()> {
    let mut words = env::args(&rt)?.skip(1);
    let name = words.next().context("an operation is wanted")?;
    let size = words.next().context("a size is wanted")?;
    let seed = words.next().context("a seed is wanted")?;
    let workers = match words.next() {
        Some(workers) => workers.parse()?,
        None => 1,
    };
    let on = On {
        rt: &rt,
        gate: &FreeGate,
        cut: cut_of(workers)?,
    };
    let timed = run(on, rt.alloc(), &name, size.parse()?, seed.parse()?)?;
    println!(rt; "{}", timed.checksum)?;
    eprintln!(rt; "{}", timed.nanoseconds)?;
    Ok(())
}
