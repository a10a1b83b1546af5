//! A first call that forks: the union of two maps of 100,000 entries, by up to four threads.
//!
//! Tests: its stored run. Wrong bodies: none; it promises nothing but to be safe.
#![tactic(auto)]

ghost use Rattle.std.specs.Prelude.{◌≤◌};

use anyhow::Result;
use aug_map::PlainMap;
use aug_monoid::{Second, SumMax};
use fork_join::{Cut, FreeGate};
use std::alloc::Global;

/// Numbers by numbers, with the sum and the greatest of the values in any range of keys.
type Totals = PlainMap<SumMax<u64>>;

// The numbers below an end that a step leads to, each with a value.
fn multiples(alloc: Global, step: usize, end: u64, val: u64) -> Result<Vec<(u64, u64)>>
    requires { 1 ≤ step }
{
    let pairs = (0..end).step_by(step).map(|key| (key, val)).collect(alloc)?;
    Ok(pairs)
}

fn main(rt: HostRuntime) -> Result<()> {
    let alloc = rt.alloc();
    let cut = Cut::new(4, 1024); // up to four threads; what has 1024 entries or more is halved
    let twos = multiples(alloc, 2, 200_000, 20)?;
    let threes = multiples(alloc, 3, 300_000, 30)?;
    let a = Totals::build(&rt, alloc, &FreeGate, cut, &twos)?;
    let b = Totals::build(&rt, alloc, &FreeGate, cut, &threes)?;
    let both = a.union(&rt, alloc, &FreeGate, cut, &b, &Second)?; // at a key of both: the value of `b`
    println!(rt;
        "{} and {} entries, {} together",
        a.size(),
        b.size(),
        both.size()
    )?;
    Ok(())
}
