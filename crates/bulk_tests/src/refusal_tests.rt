//! An augmented value that can't be combined to one sum.
ghost use Rattle.std.specs.Prelude.{◌+◌, ◌-◌, ◌^◌, ◌<◌, min};
ghost use Rattle.std.proofs.Common.{arith};

use crate::runs::assert_has;
use aug_map::Map;
use aug_monoid::{Augment, First, Leaf, NoMemory, Steps, Test};
use fork_join::{Cut, FreeGate};
use leaf_blocks::PlainLeaf;
use std::alloc::Global;
use std::marker::{Send, Sync};
use std::process::Abort;
use std::sync::ledger::Ledger;
use std::thread::Threads;

/// The saturating sum of the values, which is refused where it is 1000.
#[derive(Drop)]
struct OtherSums;

impl Augment for OtherSums {
    type Key = u64;

    type Val = u64;

    type Aug = u64;

    ghost Fits = { λ a. a < 2 ^ 64 };

    ghost base_of = { λ _ val. min val (2 ^ 64 - 1) };

    ghost unit_of = { 0 };

    ghost combined = { λ a b. min (a + b) (2 ^ 64 - 1) };

    ghost never_refuses = { ⊥ };

    ghost base_fits = { λ _ _. Prim.omega arith };

    ghost monoid = { record {
      unit_fits = Prim.omega arith;
      combine_fits = λ a b p q. Prim.omega arith;
      left_unit = λ a p. Prim.omega arith;
      right_unit = λ a p. Prim.omega arith;
      assoc = λ a b c p q r. Prim.omega arith;
    } };

    ghost augs_never_refuse = { λ _. tt };

    fn base(_alloc: Global, _key: &u64, val: &u64) -> Result<u64, NoMemory> {
        Ok(*val)
    }

    fn unit() -> u64 {
        0
    }

    fn combine<C: Ledger>(
        _alloc: Global,
        a: &u64,
        b: &u64,
        steps: &mut Steps<C>,
    ) -> Result<u64, NoMemory> {
        steps.tick();
        match a.saturating_add(*b) {
            1000 => Err(NoMemory),
            sum => Ok(sum),
        }
    }
}

type Capped<L, const B: usize> = Map<OtherSums, L, B>;

#[derive(Drop)]
struct KeyBelow {
    limit: u64,
}

impl Test<u64, u64> for KeyBelow {
    ghost use Rattle.std.specs.Prelude.{nat_lt};

    ghost passes = { λ test key _. nat_lt key test.limit };

    fn holds(&self, key: &u64, _val: &u64) -> bool {
        *key < self.limit
    }
}

// The keys from one number on and below another, each with 1.
fn ones<R: Abort>(rt: &R, alloc: Global, from: u64, end: u64) -> Vec<(u64, u64)> {
    let mut pairs = Vec::new(alloc);
    for key in from..end {
        pairs.push((key, 1)).expect(rt, "memory");
    }
    pairs
}

fn built<R: Threads + Abort + Sync, L: Leaf<u64, u64> + Send + Sync, const B: usize>(
    rt: &R,
    alloc: Global,
    pairs: &[(u64, u64)],
) -> Result<Capped<L, B>, NoMemory> {
    Map::build(rt, alloc, &FreeGate, Cut::new(4, 1), pairs)
}

// Asserts that a build is refused.
fn assert_build_refused<R: Threads + Abort + Sync, L: Leaf<u64, u64> + Send + Sync, const B: usize>(
    rt: &R,
    alloc: Global,
) {
    let pairs = ones(rt, alloc, 0, 1000);
    assert!(rt; built::<R, L, B>(rt, alloc, &pairs).is_err());
}

// Asserts that a union is refused, and leaves its maps.
fn assert_union_refused<R: Threads + Abort + Sync, L: Leaf<u64, u64> + Send + Sync, const B: usize>(
    rt: &R,
    alloc: Global,
) {
    let low = ones(rt, alloc, 0, 500);
    let high = ones(rt, alloc, 500, 1000);
    let a = built::<R, L, B>(rt, alloc, &low).expect(rt, "memory");
    let b = built::<R, L, B>(rt, alloc, &high).expect(rt, "memory");
    let cut = Cut::new(4, 1);
    assert!(rt; a.union(rt, alloc, &FreeGate, cut, &b, &First).is_err());
    assert_has(rt, alloc, &a, &low);
    assert_has(rt, alloc, &b, &high);
}

// Asserts that a filter by keys below 1000 is refused, and leaves its map.
fn assert_filter_refused<
    R: Threads + Abort + Sync,
    L: Leaf<u64, u64> + Send + Sync,
    const B: usize,
>(rt: &R, alloc: Global) {
    let pairs = ones(rt, alloc, 0, 1001);
    let map = built::<R, L, B>(rt, alloc, &pairs).expect(rt, "memory");
    let below = KeyBelow { limit: 1000 };
    assert!(rt;
        map.filter(rt, alloc, &FreeGate, Cut::new(4, 1), &below)
            .is_err()
    );
    assert_has(rt, alloc, &map, &pairs);
}

// Asserts that a build, a union and a filter are refused where the sum is 1000, and leave their arguments.
fn assert_refusals<R: Threads + Abort + Sync, L: Leaf<u64, u64> + Send + Sync, const B: usize>(
    rt: &R,
    alloc: Global,
) {
    assert_build_refused::<R, L, B>(rt, alloc);
    assert_union_refused::<R, L, B>(rt, alloc);
    assert_filter_refused::<R, L, B>(rt, alloc);
}

// The same in blocks of two sizes.
fn assert_all_refusals<R: Threads + Abort + Sync, L: Leaf<u64, u64> + Send + Sync>(
    rt: &R,
    alloc: Global,
) {
    assert_refusals::<R, L, 1>(rt, alloc);
    assert_refusals::<R, L, 32>(rt, alloc);
}

#[test]
fn a_sum_of_1000_is_refused(rt: HostRuntime) {
    assert_all_refusals::<HostRuntime, PlainLeaf<u64, u64>>(&rt, rt.alloc());
}
