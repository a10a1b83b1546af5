//! Pairs sorted by their keys, few of them on one thread and many on all processors.

use sorted_lists::{last_of_each_key, last_of_each_key_alone, sorted_pairs, sorted_pairs_alone};
use std::alloc::Global;
use std::marker::Sync;
use std::process::Abort;
use std::thread::Threads;

// The key at a place: below 64, and each of 64 places in a row has another.
fn key_at(place: u64) -> u64 {
    place.wrapping_mul(37) % 64
}

// Pairs of a key and its place.
fn jumbled<R: Abort>(rt: &R, alloc: Global, count: u64) -> Vec<(u64, u64)> {
    let mut pairs = Vec::new(alloc);
    for place in 0..count {
        pairs.push((key_at(place), place)).expect(rt, "memory");
    }
    pairs
}

// Asserts that these are so many places with their keys, in the order of the keys, and those of one key in order.
fn assert_sorted<R: Abort>(rt: &R, pairs: &[(u64, u64)], count: usize) {
    assert_eq!(rt; pairs.len(), count);
    let mut before = None;
    for pair in pairs {
        assert_eq!(rt; pair.0, key_at(pair.1));
        if let Some(last) = before {
            assert!(rt; last < *pair);
        }
        before = Some(*pair);
    }
}

// Sorts so many pairs both ways.
fn assert_sorts<R: Threads + Abort + Sync>(rt: &R, alloc: Global, count: u64) {
    let here = sorted_pairs_alone(alloc, jumbled(rt, alloc, count)).expect(rt, "memory");
    assert_sorted(rt, &here, count as usize);
    let there = sorted_pairs(rt, alloc, jumbled(rt, alloc, count)).expect(rt, "memory");
    assert_sorted(rt, &there, count as usize);
}

#[test]
fn pairs_of_one_key_stay_in_order(rt: HostRuntime) {
    assert_sorts(&rt, rt.alloc(), 0);
    assert_sorts(&rt, rt.alloc(), 1000);
    assert_sorts(&rt, rt.alloc(), 20_000);
}

// Asserts that of so many pairs the last of each key stays, which are the last 64.
fn assert_last<R: Threads + Abort + Sync>(rt: &R, alloc: Global, count: u64) {
    let pairs = jumbled(rt, alloc, count);
    let here = last_of_each_key_alone(alloc, &pairs).expect(rt, "memory");
    assert_sorted(rt, &here, 64);
    let there = last_of_each_key(rt, alloc, &pairs).expect(rt, "memory");
    assert_sorted(rt, &there, 64);
    assert_eq!(rt; here.as_slice(), there.as_slice());
    for pair in &here {
        assert!(rt; pair.1 >= count.saturating_sub(64));
    }
}

#[test]
fn the_last_pair_of_each_key_stays(rt: HostRuntime) {
    assert_last(&rt, rt.alloc(), 1000);
    assert_last(&rt, rt.alloc(), 20_000);
}
