//! How many keys two maps have in common.

use super::ordered::{Sums, four, others};
use ord_map::OrdMap;
use std::alloc::Global;
use std::process::Abort;

/// The map of the multiples of a number, from 0 on.
fn multiples<R: Abort>(rt: &R, alloc: Global, number: u64, count: u64) -> Sums {
    let mut pairs = Vec::new(alloc);
    for place in 0..count {
        pairs
            .push((place.saturating_mul(number), place))
            .expect(rt, "memory");
    }
    OrdMap::from_pairs(alloc, &pairs).expect(rt, "memory")
}

/// Asserts how many keys two maps have in common, asked of either.
fn assert_common<R: Abort>(rt: &R, a: &Sums, b: &Sums, wanted: u64) {
    assert_eq!(rt; a.intersection_len(b), wanted);
    assert_eq!(rt; b.intersection_len(a), wanted);
}

#[test]
fn common_keys_of_few_entries(rt: HostRuntime) {
    let alloc = rt.alloc();
    let map = four(&rt, alloc);
    let none: Sums = OrdMap::new();
    assert_common(&rt, &map, &others(&rt, alloc), 1);
    assert_common(&rt, &map, &map, 4);
    assert_common(&rt, &map, &none, 0);
    assert_common(&rt, &none, &none, 0);
}

// Below 6000 there are 3000 even numbers, 2000 multiples of three, and 1000 multiples of six.
#[test]
fn common_keys_of_maps_of_like_sizes(rt: HostRuntime) {
    let alloc = rt.alloc();
    let even = multiples(&rt, alloc, 2, 3_000);
    let threes = multiples(&rt, alloc, 3, 2_000);
    assert_common(&rt, &even, &threes, 1_000);
    let above = even.above(alloc, &5_000).expect(&rt, "memory");
    let below = even.below(alloc, &1_000).expect(&rt, "memory");
    assert_common(&rt, &above, &below, 0);
    assert_common(&rt, &even, &above, 499);
}

const FEW: &[(u64, u64)] = &[(0, 1), (1, 2), (3, 3), (1_000, 4), (5_998, 5), (6_000, 6)];

// Of the few keys 0, 1000 and 5998 are even and below 6000.
#[test]
fn common_keys_of_few_entries_and_of_many(rt: HostRuntime) {
    let alloc = rt.alloc();
    let even = multiples(&rt, alloc, 2, 3_000);
    let few: Sums = OrdMap::from_pairs(alloc, FEW).expect(&rt, "memory");
    let none: Sums = OrdMap::new();
    assert_common(&rt, &even, &few, 3);
    assert_common(&rt, &even, &none, 0);
}
