//! How many comparisons and combinations unions, intersections and differences of two maps take.
ghost use Rattle.aug_monoid.specs.Fresh.{IsFresh};

use crate::changes::Block;
use crate::counted::Counted;
use crate::sums::Sums;
use crate::work::Work;
use aug_map::Map;
use aug_monoid::{NoMemory, SatSum, Steps};
use std::alloc::Global;
use std::iter::{Copied, Peekable};
use std::marker::Brand;
use std::process::Abort;
use std::slice::Iter;
use std::sync::ledger::{Blank, Ledger};

type Tally<'a> = Map<Sums<'a>, Block<'a>, 32>;

/// Rising numbers: `count` from `first` on, each `step` more than the one before it, and a random number within the bits of `mask`
/// more.
#[derive(Clone, Copy)]
struct Keys {
    count: u64,
    first: u64,
    step: u64,
    mask: u64,
}

/// The keys of the lesser map, and those of the greater one.
type Pair = [Keys; 2];

fn random(count: u64, seed: u64, mask: u64) -> Keys {
    Keys {
        count,
        first: seed,
        step: 1,
        mask,
    }
}

fn even(count: u64, first: u64, step: u64) -> Keys {
    Keys {
        count,
        first,
        step,
        mask: 0,
    }
}

/// Random keys of one range, some of them in both maps.
fn random_pairs() -> [Pair; 3] {
    let many = random(100_000, 1, 0x7);
    [
        [random(10, 2, 0xffff), many],
        [random(1_000, 2, 0x1ff), many],
        [random(20_000, 2, 0x7), random(20_000, 1, 0x7)],
    ]
}

/// Keys of one map that lie at one distance among those of the other.
fn interleaved_pairs() -> [Pair; 3] {
    let many = even(100_000, 0, 2);
    [
        [even(10, 1, 20_000), many],
        [even(1_000, 1, 200), many],
        [even(20_000, 1, 2), even(20_000, 0, 2)],
    ]
}

/// Keys of one map that are all above those of the other.
fn disjoint_pairs() -> [Pair; 3] {
    let many = even(100_000, 0, 2);
    [
        [even(10, 200_000, 2), many],
        [even(1_000, 200_000, 2), many],
        [even(20_000, 40_000, 2), even(20_000, 0, 2)],
    ]
}

fn listed<R: Abort>(rt: &R, alloc: Global, keys: Keys) -> Vec<u64> {
    let mut list = Vec::new(alloc);
    let mut key = keys.first;
    let mut number = keys.first;
    for _ in 0..keys.count {
        list.push(key).expect(rt, "memory");
        number = number
            .wrapping_mul(6364136223846793005)
            .wrapping_add(1442695040888963407);
        let more = (number >> 33) & keys.mask;
        key = key.saturating_add(keys.step).saturating_add(more);
    }
    list
}

/// A walk along sorted keys that looks one ahead.
type Walk<'a> = Peekable<Copied<Iter<'a, u64>>>;

/// The least key of two lists, taken off, with 1 for a key of the first, 2 for one of the second, and 3 for one of both.
fn least(first: &mut Walk<'_>, second: &mut Walk<'_>) -> Option<(u64, u64)> {
    let key = match (first.peek(), second.peek()) {
        (Some(key), Some(other)) => *key.min(other),
        (Some(key), None) => *key,
        (None, other) => *other?,
    };
    let is_in_first = first.next_if_eq(&key).is_some();
    let is_in_second = second.next_if_eq(&key).is_some();
    let val = match (is_in_first, is_in_second) {
        (true, true) => 3,
        (true, false) => 1,
        (false, _) => 2,
    };
    Some((key, val))
}

/// The keys of two sorted lists, each with the number of `least`.
fn merged<R: Abort>(rt: &R, alloc: Global, first: &[u64], second: &[u64]) -> Vec<(u64, u64)> {
    let mut out = Vec::new(alloc);
    let mut near = first.iter().copied().peekable();
    let mut far = second.iter().copied().peekable();
    for _ in 0..first.len().saturating_add(second.len()) {
        match least(&mut near, &mut far) {
            Some(entry) => out.push(entry).expect(rt, "memory"),
            None => break,
        }
    }
    out
}

/// The entries with a value.
fn with_value<R: Abort>(
    rt: &R,
    alloc: Global,
    entries: &[(u64, u64)],
    val: u64,
) -> Vec<(u64, u64)> {
    let mut out = Vec::new(alloc);
    for entry in entries {
        if entry.1 == val {
            out.push(*entry).expect(rt, "memory");
        }
    }
    out
}

/// The map of keys with one value.
fn tally<'a, R: Abort>(rt: &R, alloc: Global, keys: &[u64], val: u64, work: &'a Work) -> Tally<'a> {
    let mut pairs = Vec::new(alloc);
    for key in keys {
        pairs
            .push((Counted::new(*key, work), val))
            .expect(rt, "memory");
    }
    Map::build_alone(alloc, &pairs).expect(rt, "memory")
}

/// The entries of a map.
fn entries_of<R: Abort>(rt: &R, alloc: Global, map: &Tally<'_>) -> Vec<(u64, u64)> {
    let list = map.to_vec(alloc).expect(rt, "memory");
    let mut out = Vec::new(alloc);
    for entry in &list {
        out.push((entry.0.number, entry.1)).expect(rt, "memory");
    }
    out
}

/// How much was counted for a map, which must have these entries.
fn counted<R: Abort>(
    rt: &R,
    alloc: Global,
    map: Result<Tally<'_>, NoMemory>,
    wanted: &[(u64, u64)],
    work: &Work,
) -> u64 {
    let taken = work.take();
    let entries = entries_of(rt, alloc, &map.expect(rt, "memory"));
    assert_eq!(rt; entries.as_slice(), wanted);
    work.take();
    taken.compared.saturating_add(taken.combined)
}

/// The most that a union, an intersection and the differences of two maps take.
fn most_of<R: Abort, C: Ledger>(rt: &R, alloc: Global, pair: Pair, steps: &mut Steps<C>) -> u64 {
    let [few, many] = pair;
    let few = listed(rt, alloc, few);
    let many = listed(rt, alloc, many);
    let all = merged(rt, alloc, &few, &many);
    let work = Work::new();
    let a = tally(rt, alloc, &few, 1, &work);
    let b = tally(rt, alloc, &many, 2, &work);
    work.take();
    let union = a.union_counted(alloc, &b, &SatSum, steps);
    let union = counted(rt, alloc, union, &all, &work);
    let both = a.intersect_counted(alloc, &b, &SatSum, steps);
    let both = counted(rt, alloc, both, &with_value(rt, alloc, &all, 3), &work);
    let left = a.difference_counted(alloc, &b, steps);
    let left = counted(rt, alloc, left, &with_value(rt, alloc, &all, 1), &work);
    let right = b.difference_counted(alloc, &a, steps);
    let right = counted(rt, alloc, right, &with_value(rt, alloc, &all, 2), &work);
    union.max(both).max(left).max(right)
}

/// The same for each of three pairs.
fn most_counted<R: Abort, C: Ledger>(
    rt: &R,
    alloc: Global,
    pairs: [Pair; 3],
    blank: Blank,
) -> [u64; 3]
    requires { IsFresh C.name C.parts blank }
{
    let mut steps = Steps::<C>::start(blank);
    let [small, middle, equal] = pairs;
    let small = most_of(rt, alloc, small, &mut steps);
    let middle = most_of(rt, alloc, middle, &mut steps);
    let equal = most_of(rt, alloc, equal, &mut steps);
    [small, middle, equal]
}

fn most<R: Abort>(rt: &R, alloc: Global, pairs: [Pair; 3]) -> [u64; 3] {
    most_counted::<R, Brand>(rt, alloc, pairs, Blank::new(1))
}

/// What combinations of each three pairs take at most. With every entry of the greater map looked at, the first two would take more
/// than 100,000.
const LIMITS: [u64; 3] = [2_000, 100_000, 100_000];

/// Asserts that combinations of each of three pairs take at most the limits.
fn assert_within<R: Abort>(rt: &R, alloc: Global, pairs: [Pair; 3]) {
    let [small, middle, equal] = most(rt, alloc, pairs);
    assert!(rt; small <= LIMITS[0]);
    assert!(rt; middle <= LIMITS[1]);
    assert!(rt; equal <= LIMITS[2]);
}

#[test]
fn few_entries_of_random_keys_do_not_go_over_the_greater_map(rt: HostRuntime) {
    assert_within(&rt, rt.alloc(), random_pairs());
}

#[test]
fn few_entries_of_interleaved_keys_do_not_go_over_the_greater_map(rt: HostRuntime) {
    assert_within(&rt, rt.alloc(), interleaved_pairs());
}

#[test]
fn few_entries_of_disjoint_keys_do_not_go_over_the_greater_map(rt: HostRuntime) {
    assert_within(&rt, rt.alloc(), disjoint_pairs());
}
