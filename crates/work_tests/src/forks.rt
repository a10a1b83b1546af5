//! Calls whose halves wait for one another.
ghost use Rattle.std.specs.Prelude.{◌≡◌, ◌+◌, ◌-◌, ◌^◌, ◌≤◌, min, true};
ghost use Rattle.std.proofs.Common.{arith};

use aug_map::{IntoEntries, Map};
use aug_monoid::{First, Leaf, NoMemory, Reduce, SumMax, Test};
use fork_join::{Cut, FreeGate};
use leaf_blocks::PlainLeaf;
use meeting::Meeting;
use std::alloc::Global;
use std::marker::{Send, Sync};
use std::process::Abort;
use std::thread::Threads;

/// Every entry.
#[derive(Drop)]
struct Every;

impl Test<u64, u64> for Every {
    ghost passes = { λ _ _ _. true };

    fn holds(&self, _key: &u64, _val: &u64) -> bool {
        true
    }
}

/// How many entries there are.
impl Reduce<u64, u64> for Every {
    type Out = u64;

    ghost Fits = { λ _ n. n ≤ 2 ^ 64 - 1 };

    ghost image_of = { λ _ _ _. 1 };

    ghost unit_of = { λ _. 0 };

    ghost combined = { λ _ a b. min (a + b) (2 ^ 64 - 1) };

    ghost image_fits = { λ _ _ _. omega arith };

    ghost monoid = { λ _. record { unit_fits = omega arith; combine_fits = λ a b f g. omega arith; left_unit = λ a f. omega arith; right_unit = λ a f. omega arith; assoc = λ a b c f g h. omega arith } };

    fn of(&self, _alloc: Global, _key: &u64, _val: &u64) -> Result<u64, NoMemory> {
        Ok(1)
    }

    fn unit(&self) -> u64 {
        0
    }

    fn combine(&self, _alloc: Global, a: u64, b: u64) -> Result<u64, NoMemory> {
        Ok(a.saturating_add(b))
    }
}

/// The multiples of a number below 60000, each with itself as value.
fn multiples<R: Abort>(rt: &R, alloc: Global, step: u64) -> Vec<(u64, u64)> {
    let mut pairs = Vec::new(alloc);
    for key in 0..60_000u64 {
        if key.is_multiple_of(step) {
            pairs.push((key, key)).expect(rt, "memory");
        }
    }
    pairs
}

fn map_of<R: Threads + Abort + Sync, L: Leaf<u64, u64> + Send + Sync>(
    rt: &R,
    alloc: Global,
    step: u64,
) -> Map<SumMax<u64>, L, 32> {
    let pairs = multiples(rt, alloc, step);
    Map::build(rt, alloc, &FreeGate, Cut::new(1, 1), &pairs).expect(rt, "memory")
}

/// The size of a map that is built, and whether its halves met.
fn built<R: Threads + Abort + Sync, L: Leaf<u64, u64> + Send + Sync>(
    rt: &R,
    alloc: Global,
) -> (u64, bool) {
    let pairs = multiples(rt, alloc, 2);
    let gate = Meeting::new();
    let map: Map<SumMax<u64>, L, 32> = Map::build(rt, alloc, &gate, Cut::new(2, 1), &pairs).expect(
        rt, "memory",
    );
    (map.size(), gate.was_met())
}

/// A map that is given up.
fn united_into<R: Threads + Abort + Sync, L: IntoEntries<u64, u64> + Send + Sync>(
    rt: &R,
    alloc: Global,
    a: Map<SumMax<u64>, L, 32>,
    b: &Map<SumMax<u64>, L, 32>,
) -> (u64, bool) {
    let list = b.to_vec(alloc).expect(rt, "memory");
    let _size = b.size(); // for the proof alone: keys rise
    let gate = Meeting::new();
    let map = a
        .union_into(rt, alloc, &gate, Cut::new(2, 1), &list, &First)
        .expect(rt, "memory");
    (map.size(), gate.was_met())
}

fn intersected<R: Threads + Abort + Sync, L: Leaf<u64, u64> + Send + Sync>(
    rt: &R,
    alloc: Global,
    a: &Map<SumMax<u64>, L, 32>,
    b: &Map<SumMax<u64>, L, 32>,
) -> (u64, bool) {
    let gate = Meeting::new();
    let map = a
        .intersect(rt, alloc, &gate, Cut::new(2, 1), b, &First)
        .expect(rt, "memory");
    (map.size(), gate.was_met())
}

fn subtracted<R: Threads + Abort + Sync, L: Leaf<u64, u64> + Send + Sync>(
    rt: &R,
    alloc: Global,
    a: &Map<SumMax<u64>, L, 32>,
    b: &Map<SumMax<u64>, L, 32>,
) -> (u64, bool) {
    let gate = Meeting::new();
    let map = a
        .difference(rt, alloc, &gate, Cut::new(2, 1), b)
        .expect(rt, "memory");
    (map.size(), gate.was_met())
}

fn filtered<R: Threads + Abort + Sync, L: Leaf<u64, u64> + Send + Sync>(
    rt: &R,
    alloc: Global,
    a: &Map<SumMax<u64>, L, 32>,
) -> (u64, bool) {
    let gate = Meeting::new();
    let map = a
        .filter(rt, alloc, &gate, Cut::new(2, 1), &Every)
        .expect(rt, "memory");
    (map.size(), gate.was_met())
}

fn reduced<R: Threads + Abort + Sync, L: Leaf<u64, u64> + Send + Sync>(
    rt: &R,
    alloc: Global,
    a: &Map<SumMax<u64>, L, 32>,
) -> (u64, bool) {
    let gate = Meeting::new();
    let count = a
        .map_reduce(rt, alloc, &gate, Cut::new(2, 1), &Every)
        .expect(rt, "memory");
    (count, gate.was_met())
}

/// Asserts that the halves of the calls on these maps meet.
fn assert_halves_of<R: Threads + Abort + Sync, L: Leaf<u64, u64> + Send + Sync>(
    rt: &R,
    alloc: Global,
    a: &Map<SumMax<u64>, L, 32>,
    b: &Map<SumMax<u64>, L, 32>,
) {
    assert_eq!(rt; intersected(rt, alloc, a, b), (10_000, true));
    assert_eq!(rt; subtracted(rt, alloc, a, b), (20_000, true));
    assert_eq!(rt; filtered(rt, alloc, a), (30_000, true));
    assert_eq!(rt; reduced(rt, alloc, a), (30_000, true));
}

/// Asserts that the halves of each call meet.
fn assert_halves_meet<R: Threads + Abort + Sync, L: IntoEntries<u64, u64> + Send + Sync>(
    rt: &R,
    alloc: Global,
) {
    assert_eq!(rt; built::<R, L>(rt, alloc), (30_000, true));
    let a = map_of::<R, L>(rt, alloc, 2);
    let b = map_of::<R, L>(rt, alloc, 3);
    assert_halves_of(rt, alloc, &a, &b);
    assert_eq!(rt; united_into(rt, alloc, a, &b), (40_000, true));
}

#[test]
fn the_halves_of_each_call_meet(rt: HostRuntime) {
    assert_halves_meet::<HostRuntime, PlainLeaf<u64, u64>>(&rt, rt.alloc());
}
