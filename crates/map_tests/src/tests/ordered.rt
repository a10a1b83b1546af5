//! The calls of `OrdMap` at `u64` keys, with the sum and the greatest of the values.
use super::wholes::AtLeast;
use aug_monoid::{First, NoMemory, SatSum, Share, SumMax};
use ord_map::OrdMap;
use std::alloc::Global;
use std::process::Abort;

pub(super) type Sums = OrdMap<SumMax<u64>>;

const PAIRS: [(u64, u64); 5] = [(6, 60), (2, 1), (8, 80), (4, 40), (2, 20)];

/// The map of the pairs.
pub(super) fn four<R: Abort>(rt: &R, alloc: Global) -> Sums {
    OrdMap::from_pairs(alloc, &PAIRS).expect(rt, "memory")
}

pub(super) const FOUR: &[(u64, u64)] = &[(2, 20), (4, 40), (6, 60), (8, 80)];

/// Asserts that a walk over a map gives these entries.
pub(super) fn assert_walk<R: Abort>(rt: &R, alloc: Global, map: &Sums, wanted: &[(u64, u64)]) {
    let mut list = Vec::new(alloc);
    for entry in map.iter(alloc) {
        let entry = entry.expect(rt, "memory");
        list.push(entry).expect(rt, "memory");
    }
    assert_eq!(rt; list.as_slice(), wanted);
}

/// Asserts that a map, which is dropped, was made and has these entries.
pub(super) fn assert_made<R: Abort>(
    rt: &R,
    alloc: Global,
    map: Result<Sums, NoMemory>,
    wanted: &[(u64, u64)],
) {
    assert_walk(rt, alloc, &map.expect(rt, "memory"), wanted);
}

const ONE_CAME: &[(u64, u64)] = &[(4, 40), (5, 50), (6, 60), (8, 80)];

#[test]
fn an_entry_comes_and_one_goes(rt: HostRuntime) {
    let alloc = rt.alloc();
    let map = four(&rt, alloc);
    let mut share = map.share(alloc).expect(&rt, "memory");
    share.insert(alloc, 5, 50).expect(&rt, "memory");
    share.remove(alloc, &2).expect(&rt, "memory");
    assert_walk(&rt, alloc, &share, ONE_CAME);
    assert_walk(&rt, alloc, &map, FOUR);
}

type Told = (u64, Option<u64>, u64, u64, u64);

/// The size, the value at 6, the sum of all values and of those at keys from 3 to 6, and how many keys are less than 6.
fn told<R: Abort>(rt: &R, alloc: Global, map: &Sums) -> Told {
    let all = match map.fold() {
        Some(totals) => totals.sum,
        None => 0,
    };
    let part = map.fold_range(alloc, &3, &6).expect(rt, "memory").sum;
    let found = map.get(alloc, &6).expect(rt, "memory");
    (map.len(), found, all, part, map.rank(&6))
}

#[test]
fn what_a_map_tells_without_a_walk(rt: HostRuntime) {
    let map = four(&rt, rt.alloc());
    assert_eq!(rt; told(&rt, rt.alloc(), &map), (4, Some(60), 200, 100, 2));
    assert!(rt; !map.is_empty());
}

#[test]
fn a_value_is_lent_where_its_key_is_there(rt: HostRuntime) {
    let map = four(&rt, rt.alloc());
    assert_eq!(rt; map.get_ref(&6).copied(), Some(60));
    assert!(rt; map.get_ref(&5).is_none());
    let none: Sums = OrdMap::new();
    assert!(rt; none.get_ref(&6).is_none());
}

#[test]
fn what_an_empty_map_tells(rt: HostRuntime) {
    let none: Sums = OrdMap::new();
    assert_eq!(rt; told(&rt, rt.alloc(), &none), (0, None, 0, 0, 0));
    assert!(rt; none.is_empty());
}

pub(super) type Found = Option<(u64, u64)>;

pub(super) fn assert_found<R: Abort>(rt: &R, found: Result<Found, NoMemory>, wanted: Found) {
    assert_eq!(rt; found.expect(rt, "memory"), wanted);
}

#[test]
fn entries_by_their_places(rt: HostRuntime) {
    let alloc = rt.alloc();
    let map = four(&rt, alloc);
    assert_found(&rt, map.first(alloc), Some((2, 20)));
    assert_found(&rt, map.last(alloc), Some((8, 80)));
    assert_found(&rt, map.select(alloc, 1), Some((4, 40)));
    assert_found(&rt, map.next(alloc, &4), Some((6, 60)));
    assert_found(&rt, map.prev(alloc, &4), Some((2, 20)));
}

#[test]
fn no_entries_by_their_places(rt: HostRuntime) {
    let alloc = rt.alloc();
    let none: Sums = OrdMap::new();
    assert_found(&rt, none.first(alloc), None);
    assert_found(&rt, none.last(alloc), None);
    assert_found(&rt, none.select(alloc, 1), None);
    assert_found(&rt, none.next(alloc, &4), None);
    assert_found(&rt, none.prev(alloc, &4), None);
}

#[test]
fn parts_of_a_map(rt: HostRuntime) {
    let alloc = rt.alloc();
    let map = four(&rt, alloc);
    assert_made(&rt, alloc, map.range(alloc, &3, &6), &[(4, 40), (6, 60)]);
    assert_made(&rt, alloc, map.below(alloc, &6), &[(2, 20), (4, 40)]);
    assert_made(&rt, alloc, map.above(alloc, &6), &[(8, 80)]);
}

#[test]
fn a_map_split_off_has_the_key(rt: HostRuntime) {
    let alloc = rt.alloc();
    let mut low = four(&rt, alloc);
    assert_made(&rt, alloc, low.split_off(alloc, &6), &[(6, 60), (8, 80)]);
    assert_walk(&rt, alloc, &low, &[(2, 20), (4, 40)]);
}

/// The map of 4,5 and 7,70.
pub(super) fn others<R: Abort>(rt: &R, alloc: Global) -> Sums {
    OrdMap::from_pairs(alloc, &[(4, 5), (7, 70)]).expect(rt, "memory")
}

pub(super) const UNION: &[(u64, u64)] = &[(2, 20), (4, 45), (6, 60), (7, 70), (8, 80)];

const REST: &[(u64, u64)] = &[(2, 20), (6, 60), (8, 80)];

#[test]
fn a_map_of_two(rt: HostRuntime) {
    let alloc = rt.alloc();
    let map = four(&rt, alloc);
    let other = others(&rt, alloc);
    assert_made(&rt, alloc, map.union(alloc, &other, &SatSum), UNION);
    assert_made(
        &rt,
        alloc,
        map.intersection(alloc, &other, &First),
        &[(4, 40)],
    );
    assert_made(&rt, alloc, map.difference(alloc, &other), REST);
}

const APPENDED: &[(u64, u64)] = &[(2, 20), (4, 5), (6, 60), (7, 70), (8, 80)];

const RETAINED: &[(u64, u64)] = &[(2, 22), (6, 60), (7, 70), (8, 80)];

#[test]
fn a_map_grows_and_keeps_what_passes(rt: HostRuntime) {
    let alloc = rt.alloc();
    let mut map = four(&rt, alloc);
    map.append(alloc, &others(&rt, alloc)).expect(&rt, "memory");
    assert_walk(&rt, alloc, &map, APPENDED);
    map.extend(alloc, &[(1, 11), (2, 22)]).expect(&rt, "memory");
    map.retain(alloc, &AtLeast { bound: 20 })
        .expect(&rt, "memory");
    assert_walk(&rt, alloc, &map, RETAINED);
}
