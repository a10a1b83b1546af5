//! Many keys and ranges at once.

use super::ordered::{Sums, four};
use aug_map::shaped::{Coded, Map, Plain, Shape};
use aug_monoid::{NoMemory, SumMax};
use ord_map::OrdMap;
use std::alloc::Global;
use std::process::Abort;

/// How many entries the great map has: several hundred blocks of them.
const ENTRIES: u64 = 20_000;

/// The value at an even key of the great map.
fn value_of(key: u64) -> u64 {
    key.saturating_mul(3).saturating_add(1)
}

/// What is to be found at a key of the great map, which has the even numbers below `2 * ENTRIES`.
fn wanted_at(key: u64) -> Option<u64> {
    if key % 2 == 0 && key < 2 * ENTRIES {
        Some(value_of(key))
    } else {
        None
    }
}

/// The pairs of the great map.
fn pairs<R: Abort>(rt: &R, alloc: Global) -> Vec<(u64, u64)> {
    let mut list = Vec::new(alloc);
    for half in 0..ENTRIES {
        list.push((2 * half, value_of(2 * half)))
            .expect(rt, "memory");
    }
    list
}

/// Keys out of order, odd ones among them, the ends of the great map, some behind it, and some of these again.
fn keys<R: Abort>(rt: &R, alloc: Global) -> Vec<u64> {
    let mut list = Vec::new(alloc);
    for number in 0..1_000u64 {
        list.push((number * 7_919) % 40_011).expect(rt, "memory");
    }
    for key in [39_998, 0, 39_999, 1, 7_919, 7_919, 1_000_000, 39_998] {
        list.push(key).expect(rt, "memory");
    }
    list
}

/// Asserts that values were found, those that are wanted at the keys.
fn assert_values<R: Abort>(
    rt: &R,
    alloc: Global,
    found: Result<Vec<Option<u64>>, NoMemory>,
    keys: &[u64],
) {
    let mut wanted = Vec::new(alloc);
    for key in keys {
        wanted.push(wanted_at(*key)).expect(rt, "memory");
    }
    let found = found.expect(rt, "memory");
    assert_eq!(rt; found.as_slice(), wanted.as_slice());
}

/// Asserts of each key whether it was found.
fn assert_there<R: Abort>(rt: &R, alloc: Global, found: Result<Vec<bool>, NoMemory>, keys: &[u64]) {
    let mut wanted = Vec::new(alloc);
    for key in keys {
        wanted.push(wanted_at(*key).is_some()).expect(rt, "memory");
    }
    let found = found.expect(rt, "memory");
    assert_eq!(rt; found.as_slice(), wanted.as_slice());
}

/// Asserts what the great map in blocks of a kind answers to many keys and to few.
fn assert_great<R: Abort, M: Shape<Key = u64, Val = u64>>(
    rt: &R,
    alloc: Global,
    map: Result<Map<M>, NoMemory>,
) {
    let map = map.expect(rt, "memory");
    let many = keys(rt, alloc);
    assert_values(rt, alloc, map.get_many(alloc, &many), &many);
    assert_there(rt, alloc, map.contains_many(alloc, &many), &many);
    let few = [39_998, 3, 3, 0];
    assert_values(rt, alloc, map.get_many(alloc, &few), &few);
}

#[test]
fn many_keys_of_a_map_in_plain_blocks(rt: HostRuntime) {
    let alloc = rt.alloc();
    let list = pairs(&rt, alloc);
    let map: Result<Map<Plain<SumMax<u64>>>, NoMemory> = Map::build_alone(alloc, &list);
    assert_great(&rt, alloc, map);
}

#[test]
fn many_keys_of_a_map_in_coded_blocks(rt: HostRuntime) {
    let alloc = rt.alloc();
    let list = pairs(&rt, alloc);
    let map: Result<Map<Coded<SumMax<u64>>>, NoMemory> = Map::build_alone(alloc, &list);
    assert_great(&rt, alloc, map);
}

const ASKED: &[u64] = &[9, 2, 8, 2, 0, 4, 5, 6, 7, 8];

const VALUES: &[Option<u64>] = &[
    None,
    Some(20),
    Some(80),
    Some(20),
    None,
    Some(40),
    None,
    Some(60),
    None,
    Some(80),
];

const THERE: &[bool] = &[
    false, true, true, true, false, true, false, true, false, true,
];

/// Asserts which values were found.
fn assert_found<R: Abort>(
    rt: &R,
    found: Result<Vec<Option<u64>>, NoMemory>,
    wanted: &[Option<u64>],
) {
    assert_eq!(rt; found.expect(rt, "memory").as_slice(), wanted);
}

#[test]
fn many_keys_of_one_block(rt: HostRuntime) {
    let alloc = rt.alloc();
    let map = four(&rt, alloc);
    assert_found(&rt, map.get_many(alloc, ASKED), VALUES);
    assert_found(&rt, map.get_many(alloc, &[]), &[]);
    let there = map.contains_many(alloc, ASKED).expect(&rt, "memory");
    assert_eq!(rt; there.as_slice(), THERE);
}

#[test]
fn many_keys_of_no_entries(rt: HostRuntime) {
    let alloc = rt.alloc();
    let none: Sums = OrdMap::new();
    assert_found(&rt, none.get_many(alloc, &[5, 5]), &[None, None]);
}

/// The sums of the values at keys in ranges.
fn sums_in<R: Abort>(rt: &R, alloc: Global, map: &Sums, ranges: &[(u64, u64)]) -> Vec<u64> {
    let folds = map.fold_many(alloc, ranges).expect(rt, "memory");
    let mut sums = Vec::new(alloc);
    for fold in &folds {
        sums.push(fold.sum).expect(rt, "memory");
    }
    sums
}

#[test]
fn folds_of_many_ranges(rt: HostRuntime) {
    let alloc = rt.alloc();
    let map = four(&rt, alloc);
    let sums = sums_in(&rt, alloc, &map, &[(5, 9), (2, 4), (5, 5), (8, 2), (0, 99)]);
    assert_eq!(rt; sums.as_slice(), &[140, 60, 0, 0, 200][..]);
}
