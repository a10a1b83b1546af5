//! Each operation at concrete types, against plain lists.

use crate::runs::{Multiples, Sums, assert_has, assert_made, multiples_of};
use aug_map::{IntoEntries, Map};
use aug_monoid::{First, Leaf, NoMemory, Reduce, Second, Share, Test};
use fork_join::{Cut, FreeGate};
use leaf_blocks::PlainLeaf;
use std::alloc::Global;
use std::marker::{Send, Sync};
use std::process::Abort;
use std::thread::Threads;

#[derive(Clone, Copy, Debug)]
enum Combined {
    Union,
    UnionAlone,
    Intersection,
    IntersectionAlone,
    Difference,
    DifferenceAlone,
}

// What stands at a key of two maps: a union keeps the first value, the intersection the second.
fn kept(call: Combined, a: Option<u64>, b: Option<u64>) -> Option<u64> {
    match (call, a, b) {
        (Combined::Union | Combined::UnionAlone, None, _) => b,
        (Combined::Union | Combined::UnionAlone, _, _) => a,
        (Combined::Intersection | Combined::IntersectionAlone, Some(_), _) => b,
        (Combined::Difference | Combined::DifferenceAlone, _, None) => a,
        _ => None,
    }
}

// The entries that the call is to answer, key by key.
fn wanted<R: Abort>(
    rt: &R,
    alloc: Global,
    call: Combined,
    a: Multiples,
    b: Multiples,
) -> Vec<(u64, u64)> {
    let mut entries = Vec::new(alloc);
    for key in 0..a.end.max(b.end) {
        if let Some(val) = kept(call, a.value_at(key), b.value_at(key)) {
            entries.push((key, val)).expect(rt, "memory");
        }
    }
    entries
}

// The map that the call answers.
fn answer_of<R: Threads + Sync, L: Leaf<u64, u64> + Send + Sync, const B: usize>(
    rt: &R,
    alloc: Global,
    cut: Cut,
    call: Combined,
    a: &Sums<L, B>,
    b: &Sums<L, B>,
) -> Result<Sums<L, B>, NoMemory> {
    match call {
        Combined::Union => a.union(rt, alloc, &FreeGate, cut, b, &First),
        Combined::UnionAlone => a.union_alone(alloc, b, &First),
        Combined::Intersection => a.intersect(rt, alloc, &FreeGate, cut, b, &Second),
        Combined::IntersectionAlone => a.intersect_alone(alloc, b, &Second),
        Combined::Difference => a.difference(rt, alloc, &FreeGate, cut, b),
        Combined::DifferenceAlone => a.difference_alone(alloc, b),
    }
}

// Asserts that the call answers these entries.
fn assert_answer<R: Threads + Abort + Sync, L: Leaf<u64, u64> + Send + Sync, const B: usize>(
    rt: &R,
    alloc: Global,
    cut: Cut,
    call: Combined,
    a: Multiples,
    b: Multiples,
    wanted: &[(u64, u64)],
) {
    let first = a.built::<R, L, B>(rt, alloc, cut);
    let second = b.built::<R, L, B>(rt, alloc, cut);
    assert_made(
        rt,
        alloc,
        answer_of(rt, alloc, cut, call, &first, &second),
        wanted,
    );
}

// Asserts that the call answers what is wanted, in blocks of three sizes.
fn assert_answers<R: Threads + Abort + Sync, L: Leaf<u64, u64> + Send + Sync>(
    rt: &R,
    alloc: Global,
    cut: Cut,
    call: Combined,
    a: Multiples,
    b: Multiples,
) {
    let entries = wanted(rt, alloc, call, a, b);
    assert_answer::<R, L, 1>(rt, alloc, cut, call, a, b, &entries);
    assert_answer::<R, L, 2>(rt, alloc, cut, call, a, b, &entries);
    assert_answer::<R, L, 32>(rt, alloc, cut, call, a, b, &entries);
}

const CALLS: &[Combined] = &[
    Combined::Union,
    Combined::UnionAlone,
    Combined::Intersection,
    Combined::IntersectionAlone,
    Combined::Difference,
    Combined::DifferenceAlone,
];

// Asserts what each call answers.
fn assert_calls<R: Threads + Abort + Sync, L: Leaf<u64, u64> + Send + Sync>(
    rt: &R,
    alloc: Global,
    cut: Cut,
    a: Multiples,
    b: Multiples,
) {
    for call in CALLS {
        assert_answers::<R, L>(rt, alloc, cut, *call, a, b);
    }
}

// Asserts what each call answers, on one worker, on four and on 64.
fn assert_cuts<R: Threads + Abort + Sync, L: Leaf<u64, u64> + Send + Sync>(
    rt: &R,
    alloc: Global,
    a: Multiples,
    b: Multiples,
) {
    assert_calls::<R, L>(rt, alloc, Cut::new(1, 1), a, b);
    assert_calls::<R, L>(rt, alloc, Cut::new(4, 1), a, b);
    assert_calls::<R, L>(rt, alloc, Cut::new(64, 1), a, b);
}

#[test]
fn two_maps_are_combined_key_by_key(rt: HostRuntime) {
    let evens = multiples_of(2, 0, 3000);
    let none = multiples_of(1, 0, 0);
    for (a, b) in [
        (evens, evens),
        (evens, multiples_of(3, 0, 4500)),
        (multiples_of(1, 0, 1000), multiples_of(1, 1000, 1700)),
        (evens, multiples_of(700, 7, 3000)),
        (multiples_of(999, 0, 9000), evens),
        (evens, none),
        (none, evens),
    ] {
        assert_cuts::<HostRuntime, PlainLeaf<u64, u64>>(&rt, rt.alloc(), a, b);
    }
}

const PAIRS: &[(u64, u64)] = &[(5, 50), (1, 10), (5, 51), (3, 30)];

const BUILT: &[(u64, u64)] = &[(1, 10), (3, 30), (5, 51)];

const PUTS: &[(u64, u64)] = &[(4, 40), (3, 31), (4, 41)];

const AFTER_PUTS: &[(u64, u64)] = &[(1, 10), (3, 31), (4, 41), (5, 51)];

const KEYS: &[u64] = &[9, 5, 0, 3, 5];

const AFTER_DELS: &[(u64, u64)] = &[(1, 10), (4, 41)];

// Asserts what a map is that is built, put to and taken from.
fn assert_batches<R: Threads + Abort + Sync, L: Leaf<u64, u64> + Send + Sync>(
    rt: &R,
    alloc: Global,
) {
    let cut = Cut::new(2, 1);
    let built: Result<Sums<L, 2>, NoMemory> = Map::build(rt, alloc, &FreeGate, cut, PAIRS);
    let built = built.expect(rt, "memory");
    assert_has(rt, alloc, &built, BUILT);
    let put = built
        .multi_put(rt, alloc, &FreeGate, cut, PUTS)
        .expect(rt, "memory");
    assert_has(rt, alloc, &put, AFTER_PUTS);
    let left = put.multi_del(rt, alloc, &FreeGate, cut, KEYS);
    assert_made(rt, alloc, left, AFTER_DELS);
}

// The same on one thread.
fn assert_batches_alone<R: Abort, L: Leaf<u64, u64>>(rt: &R, alloc: Global) {
    let built: Result<Sums<L, 2>, NoMemory> = Map::build_alone(alloc, PAIRS);
    let built = built.expect(rt, "memory");
    assert_has(rt, alloc, &built, BUILT);
    let put = built.multi_put_alone(alloc, PUTS).expect(rt, "memory");
    assert_has(rt, alloc, &put, AFTER_PUTS);
    assert_made(rt, alloc, put.multi_del_alone(alloc, KEYS), AFTER_DELS);
}

// Asserts what a map that is given up is after puts, first while it has another owner, which keeps its entries.
fn assert_put_into<R: Threads + Abort + Sync, L: IntoEntries<u64, u64> + Send + Sync>(
    rt: &R,
    alloc: Global,
) {
    let built: Result<Sums<L, 2>, NoMemory> = Map::build_alone(alloc, PAIRS);
    let built = built.expect(rt, "memory");
    let copy = built.share(alloc).expect(rt, "memory");
    let put = built.multi_put_into(rt, alloc, &FreeGate, Cut::new(2, 1), PUTS);
    assert_made(rt, alloc, put, AFTER_PUTS);
    assert_has(rt, alloc, &copy, BUILT);
    assert_made(
        rt,
        alloc,
        copy.multi_put_into_alone(alloc, PUTS),
        AFTER_PUTS,
    );
}

// All three in blocks of a kind.
fn assert_later_wins<R: Threads + Abort + Sync, L: IntoEntries<u64, u64> + Send + Sync>(
    rt: &R,
    alloc: Global,
) {
    assert_batches::<R, L>(rt, alloc);
    assert_batches_alone::<R, L>(rt, alloc);
    assert_put_into::<R, L>(rt, alloc);
}

#[test]
fn a_later_pair_of_a_key_wins(rt: HostRuntime) {
    assert_later_wins::<HostRuntime, PlainLeaf<u64, u64>>(&rt, rt.alloc());
}

#[derive(Drop)]
struct KeyBelow {
    limit: u64,
}

impl Test<u64, u64> for KeyBelow {
    ghost use Rattle.std.specs.Prelude.{nat_lt};

    ghost passes = { λ test key _. nat_lt key test.limit };

    fn holds(&self, key: &u64, _val: &u64) -> bool {
        *key < self.limit
    }
}

#[derive(Drop)]
struct KeySum;

impl Reduce<u64, u64> for KeySum {
    type Out = u64;

    ghost use Rattle.std.specs.Prelude.{◌+◌, ◌-◌, ◌^◌, ◌<◌, min};
    ghost use Rattle.std.proofs.Common.{arith};

    ghost Fits = { λ _ a. a < 2 ^ 64 };

    ghost image_of = { λ _ key _. min key (2 ^ 64 - 1) };

    ghost unit_of = { λ _. 0 };

    ghost combined = { λ _ a b. min (a + b) (2 ^ 64 - 1) };

    ghost image_fits = { λ _ key _. Prim.omega arith };

    ghost monoid = { λ _. record {
      unit_fits = Prim.omega arith;
      combine_fits = λ a b p q. Prim.omega arith;
      left_unit = λ a p. Prim.omega arith;
      right_unit = λ a p. Prim.omega arith;
      assoc = λ a b c p q r. Prim.omega arith;
    } };

    fn of(&self, _alloc: Global, key: &u64, _val: &u64) -> Result<u64, NoMemory> {
        Ok(*key)
    }

    fn unit(&self) -> u64 {
        0
    }

    fn combine(&self, _alloc: Global, a: u64, b: u64) -> Result<u64, NoMemory> {
        Ok(a.saturating_add(b))
    }
}

// How many of the first thousand keys are below a limit, and their sum.
fn filtered_sum<R: Threads + Abort + Sync, L: Leaf<u64, u64> + Send + Sync>(
    rt: &R,
    alloc: Global,
    cut: Cut,
    limit: u64,
) -> (u64, u64) {
    let all = multiples_of(1, 0, 1000).built::<R, L, 2>(rt, alloc, cut);
    let below = KeyBelow { limit };
    let part = all
        .filter(rt, alloc, &FreeGate, cut, &below)
        .expect(rt, "memory");
    let sum = part
        .map_reduce(rt, alloc, &FreeGate, cut, &KeySum)
        .expect(rt, "memory");
    (part.size(), sum)
}

// The same on one thread.
fn filtered_sum_alone<R: Threads + Abort + Sync, L: Leaf<u64, u64> + Send + Sync>(
    rt: &R,
    alloc: Global,
    cut: Cut,
    limit: u64,
) -> (u64, u64) {
    let all = multiples_of(1, 0, 1000).built::<R, L, 2>(rt, alloc, cut);
    let part = all
        .filter_alone(alloc, &KeyBelow { limit })
        .expect(rt, "memory");
    let sum = part.map_reduce_alone(alloc, &KeySum).expect(rt, "memory");
    (part.size(), sum)
}

fn assert_filtered<R: Threads + Abort + Sync, L: Leaf<u64, u64> + Send + Sync>(
    rt: &R,
    alloc: Global,
    cut: Cut,
    limit: u64,
    wanted: (u64, u64),
) {
    assert_eq!(rt; filtered_sum::<R, L>(rt, alloc, cut, limit), wanted);
    assert_eq!(rt; filtered_sum_alone::<R, L>(rt, alloc, cut, limit), wanted);
}

// Asserts what some filters leave.
fn assert_parts<R: Threads + Abort + Sync, L: Leaf<u64, u64> + Send + Sync>(rt: &R, alloc: Global) {
    assert_filtered::<R, L>(rt, alloc, Cut::new(1, 1), 0, (0, 0));
    assert_filtered::<R, L>(rt, alloc, Cut::new(4, 1), 100, (100, 4950));
    assert_filtered::<R, L>(rt, alloc, Cut::new(64, 1), 1000, (1000, 499_500));
}

#[test]
fn a_part_is_filtered_and_summed(rt: HostRuntime) {
    assert_parts::<HostRuntime, PlainLeaf<u64, u64>>(&rt, rt.alloc());
}
