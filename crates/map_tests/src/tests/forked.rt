//! The calls of `OrdMap` on whole maps that fork.

use super::ordered::{FOUR, Sums, UNION, assert_made, assert_walk, four, others};
use super::refusing::NotNine;
use super::wholes::{AtLeast, Count};
use aug_monoid::{First, SatSum, Second};
use fork_join::{Cut, FreeGate, On};
use ord_map::OrdMap;
use std::alloc::Global;
use std::marker::Sync;
use std::process::Abort;
use std::thread::Threads;

/// Two workers, who fork over a single entry.
fn two_workers<R>(rt: &R) -> On<'_, R, FreeGate> {
    On {
        rt,
        gate: &FreeGate,
        cut: Cut::new(2, 1),
    }
}

const PAIRS: &[(u64, u64)] = &[(6, 60), (2, 1), (8, 80), (4, 40), (2, 20)];

const GROWN: &[(u64, u64)] = &[(1, 11), (2, 22), (4, 40), (6, 60), (8, 80)];

const APPENDED: &[(u64, u64)] = &[(2, 22), (4, 5), (6, 60), (7, 70)];

#[test]
fn a_map_is_made_and_changed_by_forks(rt: HostRuntime) {
    let alloc = rt.alloc();
    let on = two_workers(&rt);
    let mut map = Sums::from_pairs_on(on, alloc, PAIRS).expect(&rt, "memory");
    assert_walk(&rt, alloc, &map, FOUR);
    map.extend_on(on, alloc, &[(2, 1), (1, 11), (2, 22)])
        .expect(&rt, "memory");
    assert_walk(&rt, alloc, &map, GROWN);
    map.remove_all_on(on, alloc, &[8, 5, 1])
        .expect(&rt, "memory");
    map.append_on(on, alloc, &others(&rt, alloc))
        .expect(&rt, "memory");
    assert_walk(&rt, alloc, &map, APPENDED);
    map.retain_on(on, alloc, &AtLeast { bound: 22 })
        .expect(&rt, "memory");
    assert_walk(&rt, alloc, &map, &[(2, 22), (6, 60), (7, 70)]);
}

#[test]
fn maps_of_two_are_made_by_forks(rt: HostRuntime) {
    let alloc = rt.alloc();
    let on = two_workers(&rt);
    let map = four(&rt, alloc);
    let other = others(&rt, alloc);
    let both = map.union_on(on, alloc, &other, &SatSum);
    assert_made(&rt, alloc, both, UNION);
    let common = map.intersection_on(on, alloc, &other, &First);
    assert_made(&rt, alloc, common, &[(4, 40)]);
    let rest = map.difference_on(on, alloc, &other);
    assert_made(&rt, alloc, rest, &[(2, 20), (6, 60), (8, 80)]);
    let count = map.map_reduce_on(on, alloc, &Count);
    assert_eq!(rt; count.expect(&rt, "memory"), 4);
}

/// The multiples of a number, from 0 on, the last ones first, each with itself as its value.
fn multiples<R: Abort>(rt: &R, alloc: Global, number: u64, count: u64) -> Vec<(u64, u64)> {
    let mut list = Vec::new(alloc);
    for place in 0..count {
        let key = (count - place - 1).saturating_mul(number);
        list.push((key, key)).expect(rt, "memory");
    }
    list
}

/// The map of these multiples.
fn multiples_on<R: Threads + Abort + Sync>(
    on: On<'_, R, FreeGate>,
    alloc: Global,
    number: u64,
    count: u64,
) -> Sums {
    let pairs = multiples(on.rt, alloc, number, count);
    Sums::from_pairs_on(on, alloc, &pairs).expect(on.rt, "memory")
}

// Of the numbers below 6000, 3000 are even, 2000 are multiples of three, and 1000 are both.
#[test]
fn maps_of_many_blocks_fork(rt: HostRuntime) {
    let alloc = rt.alloc();
    let on = two_workers(&rt).with(Cut::new(4, 64));
    let even = multiples_on(on, alloc, 2, 3_000);
    let threes = multiples_on(on, alloc, 3, 2_000);
    let both = even.intersection_on(on, alloc, &threes, &First);
    let sixes = multiples_on(on, alloc, 6, 1_000);
    let same = both.expect(&rt, "memory").same(alloc, &sixes);
    assert!(rt; same.expect(&rt, "memory"));
    let mut either = even
        .union_on(on, alloc, &threes, &Second)
        .expect(&rt, "memory");
    assert_eq!(rt; either.len(), 4_000);
    either
        .retain_on(on, alloc, &AtLeast { bound: 5_994 })
        .expect(&rt, "memory");
    assert_walk(&rt, alloc, &either, LAST);
}

const LAST: &[(u64, u64)] = &[
    (5_994, 5_994),
    (5_996, 5_996),
    (5_997, 5_997),
    (5_998, 5_998),
];

const KEPT: &[(u64, u64)] = &[(1, 2), (2, 4), (3, 5)];

type Refusing = OrdMap<NotNine>;

// The fold refuses to be nine: as that of 4 and 5 is, and that of 2, 4 and 3.
#[test]
fn a_change_refused_in_a_fork_leaves_the_map(rt: HostRuntime) {
    let alloc = rt.alloc();
    let on = two_workers(&rt);
    let mut map = Refusing::from_pairs_on(on, alloc, KEPT).expect(&rt, "memory");
    let three = Refusing::from_pairs_on(on, alloc, &[(3, 3)]).expect(&rt, "memory");
    assert!(rt; map.extend_on(on, alloc, &[(3, 3)]).is_err());
    assert!(rt; map.remove_all_on(on, alloc, &[1]).is_err());
    assert!(rt; map.append_on(on, alloc, &three).is_err());
    assert!(rt; map.retain_on(on, alloc, &AtLeast { bound: 4 }).is_err());
    let entries = map.to_vec(alloc).expect(&rt, "memory");
    assert_eq!(rt; entries.as_slice(), KEPT);
}

// The fold refuses to be nine: as that of 2 and 7 is, that of 4 and 5, and that of 0, 4 and 5.
#[test]
fn a_map_is_refused_in_a_fork(rt: HostRuntime) {
    let alloc = rt.alloc();
    let on = two_workers(&rt);
    assert!(rt; Refusing::from_pairs_on(on, alloc, &[(1, 2), (2, 7)]).is_err());
    let map = Refusing::from_pairs_on(on, alloc, KEPT).expect(&rt, "memory");
    let first = Refusing::from_pairs_on(on, alloc, &[(1, 0)]).expect(&rt, "memory");
    let last = Refusing::from_pairs_on(on, alloc, &[(2, 1), (3, 1)]).expect(&rt, "memory");
    assert!(rt; map.union_on(on, alloc, &first, &Second).is_err());
    assert!(rt; map.difference_on(on, alloc, &first).is_err());
    assert!(rt; map.intersection_on(on, alloc, &last, &First).is_err());
}
