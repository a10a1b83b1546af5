//! Whether maps have the same entries, and unions of many maps.
use super::ordered::{assert_walk, four, others};
use super::spans::thousand;
use aug_monoid::{SatSum, Second};
use ord_map::OrdMap;
use std::alloc::Global;
use std::process::Abort;

/// Whether a map is the same as the thousand after a put.
fn same_after<R: Abort>(rt: &R, alloc: Global, key: u64, val: u64) -> bool {
    let map = thousand(rt, alloc);
    let mut other = thousand(rt, alloc);
    other.put(alloc, key, val).expect(rt, "memory");
    map.same(alloc, &other).expect(rt, "memory")
}

#[test]
fn two_maps_are_the_same_or_not(rt: HostRuntime) {
    let alloc = rt.alloc();
    assert!(rt; same_after(&rt, alloc, 1500, 3000));
    assert!(rt; !same_after(&rt, alloc, 1500, 3001));
    assert!(rt; !same_after(&rt, alloc, 1501, 3000));
}

#[test]
fn a_map_of_as_many_other_keys_is_not_the_same(rt: HostRuntime) {
    let alloc = rt.alloc();
    let map = four(&rt, alloc);
    let mut other = four(&rt, alloc);
    other.del(alloc, &8).expect(&rt, "memory");
    other.put(alloc, 9, 80).expect(&rt, "memory");
    assert!(rt; !map.same(alloc, &other).expect(&rt, "memory"));
}

#[test]
fn the_union_of_many_maps(rt: HostRuntime) {
    let alloc = rt.alloc();
    let maps = [four(&rt, alloc), others(&rt, alloc), four(&rt, alloc)];
    let sums = OrdMap::union_all(alloc, &maps, &SatSum).expect(&rt, "memory");
    let wanted = [(2, 40), (4, 85), (6, 120), (7, 70), (8, 160)];
    assert_walk(&rt, alloc, &sums, &wanted);
    let latest = OrdMap::union_all(alloc, &maps, &Second).expect(&rt, "memory");
    let wanted = [(2, 20), (4, 40), (6, 60), (7, 70), (8, 80)];
    assert_walk(&rt, alloc, &latest, &wanted);
}
