//! Calls of `OrdMap` that answer what was there, that fold up to a key or from one, and that part maps.
use super::ordered::{Sums, assert_made, assert_walk, four, others};
use aug_monoid::{NoMemory, Share};
use std::alloc::Global;
use std::process::Abort;

fn assert_was<R: Abort>(rt: &R, was: Result<Option<u64>, NoMemory>, wanted: Option<u64>) {
    assert_eq!(rt; was.expect(rt, "memory"), wanted);
}

#[test]
fn a_change_answers_the_value_before(rt: HostRuntime) {
    let alloc = rt.alloc();
    let mut map = four(&rt, alloc);
    assert_was(&rt, map.insert(alloc, 4, 41), Some(40));
    assert_was(&rt, map.insert(alloc, 5, 50), None);
    assert_was(&rt, map.remove(alloc, &6), Some(60));
    assert_was(&rt, map.remove(alloc, &7), None);
    assert_walk(&rt, alloc, &map, &[(2, 20), (4, 41), (5, 50), (8, 80)]);
}

#[test]
fn a_change_that_answers_nothing(rt: HostRuntime) {
    let alloc = rt.alloc();
    let map = four(&rt, alloc);
    let mut share = map.share(alloc).expect(&rt, "memory");
    share.put(alloc, 5, 50).expect(&rt, "memory");
    share.del(alloc, &2).expect(&rt, "memory");
    share.del(alloc, &3).expect(&rt, "memory");
    assert_walk(&rt, alloc, &share, &[(4, 40), (5, 50), (6, 60), (8, 80)]);
}

#[test]
fn a_key_is_there_or_not(rt: HostRuntime) {
    let alloc = rt.alloc();
    let map = four(&rt, alloc);
    assert!(rt; map.contains_key(alloc, &8).expect(&rt, "memory"));
    assert!(rt; !map.contains_key(alloc, &7).expect(&rt, "memory"));
}

/// The sums of the values up to a key and from it on.
fn sums<R: Abort>(rt: &R, alloc: Global, map: &Sums, key: u64) -> (u64, u64) {
    let low = map.fold_to(alloc, &key).expect(rt, "memory").sum;
    let high = map.fold_from(alloc, &key).expect(rt, "memory").sum;
    (low, high)
}

#[test]
fn folds_up_to_a_key_and_from_one(rt: HostRuntime) {
    let alloc = rt.alloc();
    let map = four(&rt, alloc);
    assert_eq!(rt; sums(&rt, alloc, &map, 4), (60, 180));
    assert_eq!(rt; sums(&rt, alloc, &map, 5), (60, 140));
    assert_eq!(rt; sums(&rt, alloc, &Sums::default(), 5), (0, 0));
}

#[test]
fn a_range_is_taken_out(rt: HostRuntime) {
    let alloc = rt.alloc();
    let mut map = four(&rt, alloc);
    assert_made(&rt, alloc, map.extract_range(alloc, &6, &3), &[]);
    assert_made(
        &rt,
        alloc,
        map.extract_range(alloc, &3, &6),
        &[(4, 40), (6, 60)],
    );
    assert_walk(&rt, alloc, &map, &[(2, 20), (8, 80)]);
}

#[test]
fn what_one_of_two_maps_has(rt: HostRuntime) {
    let alloc = rt.alloc();
    let map = four(&rt, alloc);
    let either = map.symmetric_difference(alloc, &others(&rt, alloc));
    assert_made(&rt, alloc, either, &[(2, 20), (6, 60), (7, 70), (8, 80)]);
}
