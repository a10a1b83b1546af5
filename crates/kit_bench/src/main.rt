//! `kit_bench OPERATION SIZE SEED`: does one operation of the toolchain's own proved `BTreeMap` on the entries that `pam_bench` has
//! for the same words. It writes the checksum of the answer to standard output, and to standard error the nanoseconds that the
//! operation took, without making its input.
//!
//! Tests: its run by `bench/maps_run`. Wrong bodies: none; it promises nothing but to be safe.
#![tactic(auto)]

mod asking;
mod combining;
mod making;
mod many;
mod numbers;
mod timed;

use anyhow::{Context, Result, bail};
use asking::Question;
use combining::{Combined, Whole, time_one, time_two};
use making::Making;
use many::Asked;
use std::alloc::Global;
use std::collections::BTreeMap;
use std::env;
use std::rt::Clock;
use timed::Timed;

pub(crate) type Map = BTreeMap<u64, u64>;

// Does the operation of a name.
fn run<R: Clock>(rt: &R, alloc: Global, name: &str, size: u64, seed: u64) -> Result<Timed> {
    match name {
        "put" | "put_mut" => making::time(rt, alloc, Making::Inserts, size, seed),
        "build" => making::time(rt, alloc, Making::Build, size, seed),
        "union" => time_two(rt, alloc, Combined::Union, size, size / 2, seed),
        "union_small" => time_two(rt, alloc, Combined::Union, size, size / 2000, seed),
        "intersect" => time_two(rt, alloc, Combined::Intersection, size, size / 2, seed),
        "difference" => time_two(rt, alloc, Combined::Difference, size, size / 2, seed),
        "filter" => time_one(rt, alloc, Whole::Filter, size, seed),
        "map_reduce" => time_one(rt, alloc, Whole::MapReduce, size, seed),
        "walk" => time_one(rt, alloc, Whole::Walk, size, seed),
        "get" => asking::time(rt, alloc, Question::Get, size, seed),
        "get_many" => many::time(rt, alloc, Asked::AtRandom, size, seed),
        "get_sorted" => many::time(rt, alloc, Asked::Sorted, size, seed),
        "range_fold" => asking::time(rt, alloc, Question::RangeFold, size, seed),
        "rank" => asking::time(rt, alloc, Question::Rank, size, seed),
        "select" => asking::time(rt, alloc, Question::Select, size, seed),
        "neighbours" => asking::time(rt, alloc, Question::Neighbours, size, seed),
        _ => bail!("no such operation"),
    }
}

fn main(rt: HostRuntime) -> Result<()> {
    let mut words = env::args(&rt)?.skip(1);
    let name = words.next().context("an operation is wanted")?;
    let size = words.next().context("a size is wanted")?;
    let seed = words.next().context("a seed is wanted")?;
    let timed = run(&rt, rt.alloc(), &name, size.parse()?, seed.parse()?)?;
    println!(rt; "{}", timed.checksum)?;
    eprintln!(rt; "{}", timed.nanoseconds)?;
    Ok(())
}
