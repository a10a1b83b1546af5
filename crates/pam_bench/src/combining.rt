//! Operations on whole maps.
ghost use Rattle.std.specs.Prelude.{◌-◌, ◌^◌, ◌+◌, ◌%◌, ◌≤◌, min, nat_eq};
ghost use Rattle.std.proofs.Common.{arith};

use crate::checksum::Checksum;
use crate::making::built;
use crate::numbers::Numbers;
use crate::timed::{Timed, made, since};
use crate::{Sums, Totaled};
use anyhow::Result;
use aug_monoid::{NoMemory, Reduce, SatSum, Test};
use fork_join::{FreeGate, On};
use std::alloc::Global;
use std::marker::Sync;
use std::rt::Clock;
use std::thread::Threads;
use std::time::Instant;

/// What is made of two maps.
#[derive(Clone, Copy)]
pub(crate) enum Combined {
    Union,
    Intersection,
    Difference,
}

/// What is made of one map.
#[derive(Clone, Copy)]
pub(crate) enum Whole {
    /// The entries with even values.
    Filter,
    /// The sum of all keys and values.
    MapReduce,
    /// All entries, one after another.
    Walk,
}

/// A map of as many random pairs, with keys below a bound.
fn random_map<R: Threads + Sync>(
    on: On<R, FreeGate>,
    alloc: Global,
    numbers: &mut Numbers,
    count: u64,
    bound: u64,
) -> Result<Totaled, NoMemory> {
    let pairs = numbers.pairs(alloc, count, bound)?;
    built(on, alloc, &pairs)
}

fn combine<R: Threads + Sync>(
    on: On<R, FreeGate>,
    alloc: Global,
    combined: Combined,
    a: &Totaled,
    b: &Totaled,
) -> Result<Totaled, NoMemory> {
    match combined {
        Combined::Union => a.union(on.rt, alloc, on.gate, on.cut, b, &SatSum),
        Combined::Intersection => a.intersect(on.rt, alloc, on.gate, on.cut, b, &SatSum),
        Combined::Difference => a.difference(on.rt, alloc, on.gate, on.cut, b),
    }
}

/// Two maps, one of half the size and one of another size.
pub(crate) fn time_two<R: Threads + Clock + Sync>(
    on: On<R, FreeGate>,
    alloc: Global,
    combined: Combined,
    size: u64,
    other: u64,
    seed: u64,
) -> Result<Timed> {
    let mut numbers = Numbers::new(seed);
    let half = size / 2;
    let a = random_map(on, alloc, &mut numbers, half, half * 2)?;
    let b = random_map(on, alloc, &mut numbers, other, half * 2)?;
    let start = Instant::now(on.rt)?;
    let map = combine(on, alloc, combined, &a, &b)?;
    made(on.rt, start, map.cursor(alloc))
}

/// Even values.
#[derive(Drop)]
struct EvenValue;

impl Test<u64, u64> for EvenValue {
    ghost passes = { λ _ _ val. nat_eq (val % 2) 0 };

    fn holds(&self, _key: &u64, val: &u64) -> bool {
        *val % 2 == 0
    }
}

/// The sum of all keys and values.
#[derive(Drop)]
struct WholeSum;

impl Reduce<u64, u64> for WholeSum {
    type Out = u64;

    ghost Fits = { λ _ n. n ≤ 2 ^ 64 - 1 };

    ghost image_of = { λ _ key val. min (key + val) (2 ^ 64 - 1) };

    ghost unit_of = { λ _. 0 };

    ghost combined = { λ _ a b. min (a + b) (2 ^ 64 - 1) };

    ghost image_fits = { λ _ key val. Prim.omega arith };

    ghost monoid = { λ _. record {
      unit_fits = Prim.omega arith;
      combine_fits = λ a b p q. Prim.omega arith;
      left_unit = λ a p. Prim.omega arith;
      right_unit = λ a p. Prim.omega arith;
      assoc = λ a b c p q r. Prim.omega arith;
    } };

    fn of(&self, _alloc: Global, key: &u64, val: &u64) -> Result<u64, NoMemory> {
        Ok(key.saturating_add(*val))
    }

    fn unit(&self) -> u64 {
        0
    }

    fn combine(&self, _alloc: Global, a: u64, b: u64) -> Result<u64, NoMemory> {
        Ok(a.saturating_add(b))
    }
}

pub(crate) fn time_one<R: Threads + Clock + Sync>(
    on: On<R, FreeGate>,
    alloc: Global,
    whole: Whole,
    size: u64,
    seed: u64,
) -> Result<Timed> {
    let mut numbers = Numbers::new(seed);
    let map = random_map(on, alloc, &mut numbers, size, size.saturating_mul(2))?;
    let start = Instant::now(on.rt)?;
    match whole {
        Whole::Filter => {
            let even = map.filter(on.rt, alloc, on.gate, on.cut, &EvenValue)?;
            made(on.rt, start, even.cursor(alloc))
        }
        Whole::MapReduce => {
            let sum = map.map_reduce(on.rt, alloc, on.gate, on.cut, &WholeSum)?;
            since(on.rt, start, sum)
        }
        Whole::Walk => {
            let map = Sums::from_map(map);
            let mut checksum = Checksum::new();
            checksum.add_lent(map.iter_ref());
            since(on.rt, start, checksum.sum())
        }
    }
}
