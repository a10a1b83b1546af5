//! Iterators of `OrdMap` over ranges of keys, from both ends, on a map of several blocks.
use super::ordered::Sums;
use super::sums::Entries;
use aug_monoid::SumMax;
use ord_map::{Iter, IterRef, OrdMap};
use std::alloc::Global;
use std::ops::Bound;
use std::process::Abort;

/// The entries of every third number from `from` on, below `to` and below 3000, each with twice its key as value.
fn thirds<R: Abort>(rt: &R, alloc: Global, from: u64, to: u64) -> Entries {
    let mut entries = Vec::new(alloc);
    for key in 0..3000 {
        if key % 3 == 0 && key >= from && key < to {
            entries
                .push((key, key.wrapping_mul(2)))
                .expect(rt, "memory");
        }
    }
    entries
}

/// The map of these thousand entries.
pub(super) fn thousand<R: Abort>(rt: &R, alloc: Global) -> Sums {
    OrdMap::from_pairs(alloc, &thirds(rt, alloc, 0, 3000)).expect(rt, "memory")
}

/// Asserts that an iterator gives these entries.
fn assert_gives<R: Abort>(
    rt: &R,
    alloc: Global,
    iter: Iter<'_, SumMax<u64>>,
    wanted: &[(u64, u64)],
) {
    let mut list = Vec::new(alloc);
    for entry in iter {
        let entry = entry.expect(rt, "memory");
        list.push(entry).expect(rt, "memory");
    }
    assert_eq!(rt; list.as_slice(), wanted);
}

/// Asserts that an iterator gives these entries from the last on.
fn assert_gives_back<R: Abort>(
    rt: &R,
    alloc: Global,
    iter: Iter<'_, SumMax<u64>>,
    wanted: &[(u64, u64)],
) {
    let mut list = Vec::new(alloc);
    for entry in iter.rev() {
        let entry = entry.expect(rt, "memory");
        list.push(entry).expect(rt, "memory");
    }
    list.as_mut_slice().reverse();
    assert_eq!(rt; list.as_slice(), wanted);
}

/// Asserts which entries are lent.
fn assert_lends<R: Abort>(
    rt: &R,
    alloc: Global,
    entries: IterRef<'_, SumMax<u64>>,
    wanted: &[(u64, u64)],
) {
    let mut list = Vec::new(alloc);
    for (key, val) in entries {
        list.push((*key, *val)).expect(rt, "memory");
    }
    assert_eq!(rt; list.as_slice(), wanted);
}

/// Asserts that a range of the thousand has the keys from `from` on below `to`, both ways.
fn assert_range<R: Abort>(
    rt: &R,
    alloc: Global,
    lo: Bound<&u64>,
    hi: Bound<&u64>,
    from: u64,
    to: u64,
) {
    let map = thousand(rt, alloc);
    let wanted = thirds(rt, alloc, from, to);
    assert_gives(rt, alloc, map.range_iter(alloc, lo, hi), &wanted);
    assert_gives_back(rt, alloc, map.range_iter(alloc, lo, hi), &wanted);
    assert_lends(rt, alloc, map.range_ref(lo, hi), &wanted);
}

#[test]
fn a_range_between_keys_that_are_there(rt: HostRuntime) {
    let alloc = rt.alloc();
    let (low, high) = (Bound::Included(&30), Bound::Included(&1500));
    let (above, below) = (Bound::Excluded(&30), Bound::Excluded(&1500));
    assert_range(&rt, alloc, low, high, 30, 1501);
    assert_range(&rt, alloc, low, below, 30, 1500);
    assert_range(&rt, alloc, above, high, 31, 1501);
    assert_range(&rt, alloc, above, below, 31, 1500);
}

#[test]
fn a_range_between_keys_that_are_not_there(rt: HostRuntime) {
    let alloc = rt.alloc();
    let (low, high) = (Bound::Included(&31), Bound::Included(&1501));
    let (above, below) = (Bound::Excluded(&31), Bound::Excluded(&1501));
    assert_range(&rt, alloc, low, high, 31, 1501);
    assert_range(&rt, alloc, above, below, 31, 1501);
}

#[test]
fn a_range_with_an_end_left_open(rt: HostRuntime) {
    let alloc = rt.alloc();
    let open = Bound::Unbounded;
    assert_range(&rt, alloc, open, open, 0, 3000);
    assert_range(&rt, alloc, open, Bound::Excluded(&300), 0, 300);
    assert_range(&rt, alloc, Bound::Excluded(&2700), open, 2701, 3000);
    assert_range(&rt, alloc, Bound::Included(&5000), open, 5000, 5000);
}

#[test]
fn a_range_of_one_key_or_none(rt: HostRuntime) {
    let alloc = rt.alloc();
    let (at, past) = (Bound::Included(&30), Bound::Excluded(&30));
    assert_range(&rt, alloc, at, at, 30, 31);
    assert_range(&rt, alloc, at, past, 30, 30);
    assert_range(&rt, alloc, past, at, 30, 30);
    assert_range(&rt, alloc, past, past, 30, 30);
    assert_range(&rt, alloc, past, Bound::Excluded(&33), 31, 33);
    assert_range(&rt, alloc, Bound::Included(&900), at, 900, 31);
}

#[test]
fn entries_from_a_place_on(rt: HostRuntime) {
    let alloc = rt.alloc();
    let map = thousand(&rt, alloc);
    let late = thirds(&rt, alloc, 2100, 3000);
    assert_gives(&rt, alloc, map.iter_from_place(alloc, 700), &late);
    assert_gives(&rt, alloc, map.iter_from_place(alloc, 1000), &[]);
    assert_gives(&rt, alloc, map.iter_from_place(alloc, 2000), &[]);
}

#[test]
fn how_many_keys_are_at_most_a_key(rt: HostRuntime) {
    let map = thousand(&rt, rt.alloc());
    assert_eq!(rt; map.count_to(&0), 1);
    assert_eq!(rt; map.count_to(&1500), 501);
    assert_eq!(rt; map.count_to(&1501), 501);
    assert_eq!(rt; map.count_to(&5000), 1000);
    let none: Sums = OrdMap::new();
    assert_eq!(rt; none.count_to(&0), 0);
}
