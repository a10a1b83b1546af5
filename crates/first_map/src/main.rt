//! A first program over the library: prices by day, and the lowest of any run of days, by an augment of its own.
//!
//! Tests: its stored run. Wrong bodies: none; it promises nothing but to be safe.
#![tactic(auto)]

ghost use Rattle.std.specs.Prelude.{◌-◌, ◌^◌, ◌<◌, min};
ghost use Rattle.std.proofs.Common.{arith};

use anyhow::Result;
use aug_monoid::{Augment, NoMemory, Share, Steps};
use ord_map::OrdMap;
use std::alloc::Global;
use std::sync::ledger::Ledger;

/// The lowest value, and the greatest number where there is none.
#[derive(Drop)]
struct Lowest;

impl Augment for Lowest {
    type Key = u64;

    type Val = u64;

    type Aug = u64;

    ghost Fits = { λ a. a < 2 ^ 64 };

    ghost base_of = { λ _ price. min price (2 ^ 64 - 1) };

    ghost unit_of = { 2 ^ 64 - 1 };

    ghost combined = { min };

    ghost never_refuses = { Unit {0} };

    ghost base_fits = { λ _ _. Prim.omega arith };

    ghost monoid = { record {
      unit_fits = Prim.omega arith;
      combine_fits = λ a b p q. Prim.omega arith;
      left_unit = λ a p. Prim.omega arith;
      right_unit = λ a p. Prim.omega arith;
      assoc = λ a b c p q r. Prim.omega arith;
    } };

    ghost augs_never_refuse = { λ _. tt };

    fn base(_alloc: Global, _day: &u64, price: &u64) -> Result<u64, NoMemory> {
        Ok(*price)
    }

    fn unit() -> u64 {
        u64::MAX
    }

    fn combine<C: Ledger>(
        _alloc: Global,
        a: &u64,
        b: &u64,
        steps: &mut Steps<C>,
    ) -> Result<u64, NoMemory> {
        steps.tick();
        Ok(*a.min(b))
    }

    fn is_total() -> bool {
        true
    }
}

fn main(rt: HostRuntime) -> Result<()> {
    let alloc = rt.alloc();
    let mut prices: OrdMap<Lowest> = OrdMap::from_pairs(
        alloc,
        &[(1, 70), (2, 40), (3, 90), (4, 60)],
    )?;
    let old = prices.share(alloc)?; // costs no more than a pointer
    prices.insert(alloc, 3, 30)?; // `old` has what it had
    let now = prices.fold_range(alloc, &2, &4)?; // made of stored folds
    let before = old.fold_range(alloc, &2, &4)?;
    println!(rt; "lowest of days 2 to 4: {now}, before {before}")?;
    Ok(())
}
