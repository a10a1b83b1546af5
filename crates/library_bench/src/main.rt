//! `library_bench OPERATION SIZE SEED`: does one operation of intervals, points, documents or a graph of this size on one thread,
//! with seeded random input. It writes the checksum of the answer to standard output, and to standard error the nanoseconds that
//! the operation took, without making its input.
//!
//! Tests: its stored run. Wrong bodies: none; it promises nothing but to be safe.
#![tactic(auto)]

mod checksum;
mod documents;
mod graphs;
mod intervals;
mod numbers;
mod points;
mod searches;
mod spans;
mod timed;

use anyhow::{Context, Result, bail};
use std::alloc::Global;
use std::env;
use std::rt::Clock;
use timed::Timed;

// Does the operation of a name on intervals or points.
fn run_geometry(rt: &impl Clock, alloc: Global, name: &str, size: u64, seed: u64) -> Result<Timed> {
    match name {
        "intervals_at_once" => intervals::time_at_once(rt, alloc, size, seed),
        "intervals_added" => intervals::time_added(rt, alloc, size, seed),
        "intervals_stab" => intervals::time_stab(rt, alloc, size, seed),
        "spans_at_once" => spans::time_at_once(rt, alloc, size, seed),
        "spans_inserted" => spans::time_inserted(rt, alloc, size, seed),
        "spans_overlapping" => spans::time_overlapping(rt, alloc, size, seed),
        "points_at_once" => points::time_at_once(rt, alloc, size, seed),
        "points_added" => points::time_added(rt, alloc, size, seed),
        "points_sum" => points::time_sum(rt, alloc, size, seed),
        _ => bail!("no such operation"),
    }
}

// Does the operation of a name.
fn run(rt: &impl Clock, alloc: Global, name: &str, size: u64, seed: u64) -> Result<Timed> {
    match name {
        "docs_added" => documents::time_added(rt, alloc, size, seed),
        "docs_top" => documents::time_top(rt, alloc, size, seed),
        "edges_at_once" => graphs::time_at_once(rt, alloc, size, seed),
        "edges_in_batches" => graphs::time_in_batches(rt, alloc, size, seed),
        "edges_held" => graphs::time_held(rt, alloc, size, seed),
        "bfs" => searches::time_bfs(rt, alloc, size, seed),
        "distance" => searches::time_distance(rt, alloc, size, seed),
        "path" => searches::time_path(rt, alloc, size, seed),
        _ => run_geometry(rt, alloc, name, size, seed),
    }
}

fn main(rt: HostRuntime) -> Result<()> {
    let mut words = env::args(&rt)?.skip(1);
    let name = words.next().context("an operation is wanted")?;
    let size = words.next().context("a size is wanted")?;
    let seed = words.next().context("a seed is wanted")?;
    let timed = run(&rt, rt.alloc(), &name, size.parse()?, seed.parse()?)?;
    println!(rt; "{}", timed.checksum)?;
    eprintln!(rt; "{}", timed.nanoseconds)?;
    Ok(())
}
