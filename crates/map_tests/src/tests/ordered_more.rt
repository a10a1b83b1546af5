//! More calls of `OrdMap`: what stands near a key, changes at the ends and of many keys, lists, tests by folds, and the way to
//! the maps that fork.
use super::ordered::{FOUR, Sums, UNION, assert_found, assert_made, assert_walk, four, others};
use super::queries::AtLeast;
use super::refusing::NotNine;
use super::wholes::Count;
use aug_monoid::SatSum;
use fork_join::{Cut, FreeGate};
use ord_map::OrdMap;
use std::alloc::Global;
use std::process::Abort;

#[test]
fn a_value_or_the_one_that_is_given(rt: HostRuntime) {
    let alloc = rt.alloc();
    let map = four(&rt, alloc);
    let found = map.get_or(alloc, &4, 7).expect(&rt, "memory");
    assert_eq!(rt; found, 40);
    let missed = map.get_or(alloc, &5, 7).expect(&rt, "memory");
    assert_eq!(rt; missed, 7);
}

#[test]
fn the_nearest_entries_at_a_key_and_between_two(rt: HostRuntime) {
    let alloc = rt.alloc();
    let map = four(&rt, alloc);
    assert_found(&rt, map.floor(alloc, &4), Some((4, 40)));
    assert_found(&rt, map.floor(alloc, &5), Some((4, 40)));
    assert_found(&rt, map.floor(alloc, &1), None);
    assert_found(&rt, map.ceiling(alloc, &4), Some((4, 40)));
    assert_found(&rt, map.ceiling(alloc, &5), Some((6, 60)));
    assert_found(&rt, map.ceiling(alloc, &9), None);
}

#[test]
fn entries_are_taken_from_both_ends(rt: HostRuntime) {
    let alloc = rt.alloc();
    let mut map = four(&rt, alloc);
    assert_found(&rt, map.pop_first(alloc), Some((2, 20)));
    assert_found(&rt, map.pop_last(alloc), Some((8, 80)));
    assert_walk(&rt, alloc, &map, &[(4, 40), (6, 60)]);
    let mut none: Sums = OrdMap::new();
    assert_found(&rt, none.pop_first(alloc), None);
    assert_found(&rt, none.pop_last(alloc), None);
}

#[test]
fn the_keys_and_the_values_as_lists(rt: HostRuntime) {
    let alloc = rt.alloc();
    let map = four(&rt, alloc);
    let keys = map.keys(alloc).expect(&rt, "memory");
    assert_eq!(rt; keys.as_slice(), [2, 4, 6, 8].as_slice());
    let vals = map.values(alloc).expect(&rt, "memory");
    assert_eq!(rt; vals.as_slice(), [20, 40, 60, 80].as_slice());
}

#[test]
fn many_keys_go_and_values_are_combined(rt: HostRuntime) {
    let alloc = rt.alloc();
    let mut map = four(&rt, alloc);
    map.remove_all(alloc, &[8, 5, 2]).expect(&rt, "memory");
    assert_walk(&rt, alloc, &map, &[(4, 40), (6, 60)]);
    map.put_with(alloc, 4, 5, &SatSum).expect(&rt, "memory");
    map.put_with(alloc, 5, 5, &SatSum).expect(&rt, "memory");
    assert_walk(&rt, alloc, &map, &[(4, 45), (5, 5), (6, 60)]);
}

#[test]
fn entries_by_a_test_of_folds_and_their_number(rt: HostRuntime) {
    let alloc = rt.alloc();
    let map = four(&rt, alloc);
    let test = AtLeast { bound: 60 };
    let part = map.filter_fold(alloc, &test);
    assert_made(&rt, alloc, part, &[(6, 60), (8, 80)]);
    assert_found(&rt, map.first_where(alloc, &test), Some((6, 60)));
    let count = map.map_reduce(alloc, &Count);
    assert_eq!(rt; count.expect(&rt, "memory"), 4);
}

#[test]
fn a_map_forks_as_the_map_that_it_is(rt: HostRuntime) {
    let alloc = rt.alloc();
    let map = four(&rt, alloc);
    let other = others(&rt, alloc).into_map();
    let cut = Cut::new(2, 1);
    let both = map
        .as_map()
        .union(&rt, alloc, &FreeGate, cut, &other, &SatSum)
        .expect(&rt, "memory");
    assert_walk(&rt, alloc, &OrdMap::from_map(both), UNION);
}

/// Whether the first map has its keys in the second, and whether it has none of them there.
fn beside<R: Abort>(rt: &R, alloc: Global, a: &Sums, b: &Sums) -> (bool, bool) {
    let inside = a.is_subset(alloc, b).expect(rt, "memory");
    let apart = a.is_disjoint(alloc, b).expect(rt, "memory");
    (inside, apart)
}

#[test]
fn the_keys_of_one_map_beside_those_of_another(rt: HostRuntime) {
    let alloc = rt.alloc();
    let map = four(&rt, alloc);
    let low = map.below(alloc, &6).expect(&rt, "memory");
    let high = map.above(alloc, &6).expect(&rt, "memory");
    assert_eq!(rt; beside(&rt, alloc, &low, &map), (true, false));
    assert_eq!(rt; beside(&rt, alloc, &map, &low), (false, false));
    assert_eq!(rt; beside(&rt, alloc, &low, &high), (false, true));
}

// The fold refuses to be nine: as that of 4 and 5 is, and that of 2 and 7.
#[test]
fn a_refused_change_leaves_the_map(rt: HostRuntime) {
    let alloc = rt.alloc();
    let pairs = [(1, 2), (2, 4), (3, 5)];
    let mut map: OrdMap<NotNine> = OrdMap::from_pairs(alloc, &pairs).expect(&rt, "memory");
    assert!(rt; map.pop_first(alloc).is_err());
    assert!(rt; map.remove_all(alloc, &[1]).is_err());
    assert!(rt; map.put_with(alloc, 2, 3, &SatSum).is_err());
    let entries = map.to_vec(alloc).expect(&rt, "memory");
    assert_eq!(rt; entries.as_slice(), pairs.as_slice());
}

#[test]
fn all_entries_as_a_list_and_none(rt: HostRuntime) {
    let alloc = rt.alloc();
    let mut map = four(&rt, alloc);
    let entries = map.to_vec(alloc).expect(&rt, "memory");
    assert_eq!(rt; entries.as_slice(), FOUR);
    map.clear();
    assert_walk(&rt, alloc, &map, &[]);
}
