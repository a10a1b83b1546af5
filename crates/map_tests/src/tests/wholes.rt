//! Whole maps put together, and batches, at the two map types that tools name.
ghost use Rattle.std.specs.Prelude.{◌+◌, ◌-◌, ◌^◌, ◌≤◌, min, nat_le};
ghost use Rattle.std.proofs.Common.{arith};

use super::sums::{Sums, assert_has, assert_made};
use aug_map::Map;
use aug_monoid::{Leaf, NoMemory, Reduce, SatSum, Test};
use diff_leaf::DiffLeaf;
use fork_join::{Cut, FreeGate};
use leaf_blocks::PlainLeaf;
use std::alloc::Global;
use std::marker::{Send, Sync};
use std::process::Abort;
use std::thread::Threads;

/// Values of at least `bound`.
#[derive(Drop)]
pub(super) struct AtLeast {
    pub(super) bound: u64,
}

impl Test<u64, u64> for AtLeast {
    ghost passes = { λ test _ val. nat_le test.bound val };

    fn holds(&self, _key: &u64, val: &u64) -> bool {
        self.bound <= *val
    }
}

/// How many entries there are.
#[derive(Drop)]
pub(super) struct Count;

impl Reduce<u64, u64> for Count {
    type Out = u64;

    ghost Fits = { λ _ n. n ≤ 2 ^ 64 - 1 };

    ghost image_of = { λ _ _ _. 1 };

    ghost unit_of = { λ _. 0 };

    ghost combined = { λ _ a b. min (a + b) (2 ^ 64 - 1) };

    ghost image_fits = { λ _ _ _. omega arith };

    ghost monoid = { λ _. record { unit_fits = omega arith; combine_fits = λ a b f g. omega arith; left_unit = λ a f. omega arith; right_unit = λ a f. omega arith; assoc = λ a b c f g h. omega arith } };

    fn of(&self, _alloc: Global, _key: &u64, _val: &u64) -> Result<u64, NoMemory> {
        Ok(1)
    }

    fn unit(&self) -> u64 {
        0
    }

    fn combine(&self, _alloc: Global, a: u64, b: u64) -> Result<u64, NoMemory> {
        Ok(a.saturating_add(b))
    }
}

/// The maps of this file are those that tools name, `PlainMap` and `CodedMap` of sums.
type Tool<L> = Sums<L, 32>;

const PAIRS: &[(u64, u64)] = &[(5, 50), (1, 10), (5, 51)];

const BUILT: &[(u64, u64)] = &[(1, 10), (5, 51)];

const OTHERS: &[(u64, u64)] = &[(5, 1), (3, 31)];

const PUTS: &[(u64, u64)] = &[(3, 30), (5, 1), (3, 31)];

const AFTER_PUTS: &[(u64, u64)] = &[(1, 10), (3, 31), (5, 1)];

const AFTER_DELS: &[(u64, u64)] = &[(3, 31), (5, 1)];

fn built<R: Threads + Abort + Sync, L: Leaf<u64, u64> + Send + Sync>(
    rt: &R,
    alloc: Global,
    pairs: &[(u64, u64)],
) -> Tool<L> {
    let map = Map::build(rt, alloc, &FreeGate, Cut::new(2, 1), pairs);
    map.expect(rt, "memory")
}

/// Asserts what a map of 1,10 5,51 is after each of two batches.
fn assert_batches<R: Threads + Abort + Sync, L: Leaf<u64, u64> + Send + Sync>(
    rt: &R,
    alloc: Global,
    a: &Tool<L>,
    cut: Cut,
) {
    assert_has(rt, alloc, a, BUILT);
    let puts = a
        .multi_put(rt, alloc, &FreeGate, cut, PUTS)
        .expect(rt, "memory");
    assert_has(rt, alloc, &puts, AFTER_PUTS);
    let dels = puts.multi_del(rt, alloc, &FreeGate, cut, &[1, 9]);
    assert_made(rt, alloc, dels, AFTER_DELS);
}

/// Asserts what two maps have in common, and what the first one has alone.
fn assert_parted<R: Threads + Abort + Sync, L: Leaf<u64, u64> + Send + Sync>(
    rt: &R,
    alloc: Global,
    a: &Tool<L>,
    b: &Tool<L>,
    cut: Cut,
) {
    let both = a.intersect(rt, alloc, &FreeGate, cut, b, &SatSum);
    assert_made(rt, alloc, both, &[(5, 52)]);
    let rest = a.difference(rt, alloc, &FreeGate, cut, b);
    assert_made(rt, alloc, rest, &[(1, 10)]);
}

const UNION: &[(u64, u64)] = &[(1, 10), (3, 31), (5, 52)];

/// Asserts what the union of two maps is, its entries with values of at least 31, and how many entries the first has.
fn assert_united<R: Threads + Abort + Sync, L: Leaf<u64, u64> + Send + Sync>(
    rt: &R,
    alloc: Global,
    a: &Tool<L>,
    b: &Tool<L>,
    cut: Cut,
) {
    let all = a
        .union(rt, alloc, &FreeGate, cut, b, &SatSum)
        .expect(rt, "memory");
    assert_has(rt, alloc, &all, UNION);
    let kept = all.filter(rt, alloc, &FreeGate, cut, &AtLeast { bound: 31 });
    assert_made(rt, alloc, kept, &[(3, 31), (5, 52)]);
    let count = a.map_reduce(rt, alloc, &FreeGate, cut, &Count);
    assert_eq!(rt; count.expect(rt, "memory"), 2);
}

/// Asserts that batches and combinations of maps give what they should, where `a` is 1,10 5,51 and `b` is 3,31 5,1.
fn assert_wholes<R: Threads + Abort + Sync, L: Leaf<u64, u64> + Send + Sync>(
    rt: &R,
    alloc: Global,
) {
    let cut = Cut::new(2, 1);
    let a: Tool<L> = built(rt, alloc, PAIRS);
    let b: Tool<L> = built(rt, alloc, OTHERS);
    assert_batches(rt, alloc, &a, cut);
    assert_united(rt, alloc, &a, &b, cut);
    assert_parted(rt, alloc, &a, &b, cut);
}

/// Asserts what batches on one thread leave.
fn assert_batches_alone<R: Abort, L: Leaf<u64, u64>>(rt: &R, alloc: Global, a: &Tool<L>) {
    assert_has(rt, alloc, a, BUILT);
    let puts = a.multi_put_alone(alloc, PUTS).expect(rt, "memory");
    assert_has(rt, alloc, &puts, AFTER_PUTS);
    assert_made(rt, alloc, puts.multi_del_alone(alloc, &[1, 9]), AFTER_DELS);
}

/// Asserts that the calls on one thread give what they should.
fn assert_alone<R: Abort, L: Leaf<u64, u64>>(rt: &R, alloc: Global) {
    let a: Result<Tool<L>, NoMemory> = Map::build_alone(alloc, PAIRS);
    let a = a.expect(rt, "memory");
    assert_batches_alone(rt, alloc, &a);
    let twice = a.intersect_alone(alloc, &a, &SatSum);
    assert_made(rt, alloc, twice, &[(1, 20), (5, 102)]);
    let kept = a.filter_alone(alloc, &AtLeast { bound: 31 });
    assert_made(rt, alloc, kept, &[(5, 51)]);
    let count = a.map_reduce_alone(alloc, &Count);
    assert_eq!(rt; count.expect(rt, "memory"), 2);
}

const APPENDED: &[(u64, u64)] = &[(5, 1), (3, 31), (1, 10), (5, 51)];

/// Asserts that a map's entries are appended behind what a vector has.
fn assert_appended<R: Abort, L: Leaf<u64, u64>>(rt: &R, alloc: Global) {
    let map: Result<Tool<L>, NoMemory> = Map::build_alone(alloc, PAIRS);
    let mut list = Vec::from_slice(alloc, OTHERS).expect(rt, "memory");
    map.expect(rt, "memory")
        .append_to(alloc, &mut list)
        .expect(rt, "memory");
    assert_eq!(rt; list.as_slice(), APPENDED);
}

#[test]
fn plain_maps_at_once(rt: HostRuntime) {
    assert_alone::<HostRuntime, PlainLeaf<u64, u64>>(&rt, rt.alloc());
    assert_wholes::<HostRuntime, PlainLeaf<u64, u64>>(&rt, rt.alloc());
    assert_appended::<HostRuntime, PlainLeaf<u64, u64>>(&rt, rt.alloc());
}

#[test]
fn coded_maps_at_once(rt: HostRuntime) {
    assert_alone::<HostRuntime, DiffLeaf<u64>>(&rt, rt.alloc());
    assert_wholes::<HostRuntime, DiffLeaf<u64>>(&rt, rt.alloc());
    assert_appended::<HostRuntime, DiffLeaf<u64>>(&rt, rt.alloc());
}
