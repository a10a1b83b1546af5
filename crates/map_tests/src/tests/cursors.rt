//! Cursors over maps of several sizes.

ghost use Rattle.aug_monoid.specs.Fresh.{IsFresh};

use super::sums::{Entries, Sums, map_of};
use aug_map::{CodedMap, map_crosses};
use aug_monoid::{Leaf, Steps, SumMax};
use diff_leaf::DiffLeaf;
use leaf_blocks::PlainLeaf;
use std::alloc::Global;
use std::marker::Brand;
use std::process::Abort;
use std::sync::ledger::{Blank, Ledger};

/// The entries of every third number from 0, each with twice its key as value.
fn thirds<R: Abort>(rt: &R, alloc: Global, count: u64) -> Entries {
    let mut entries = Vec::new(alloc);
    for at in 0..count {
        let key = at.wrapping_mul(3);
        entries
            .push((key, key.wrapping_mul(2)))
            .expect(rt, "memory");
    }
    entries
}

/// The items of a cursor, and of one call more.
fn walked<R: Abort, L: Leaf<u64, u64>>(rt: &R, alloc: Global, map: &Sums<L, 32>) -> Entries {
    let mut entries = Vec::new(alloc);
    let mut cursor = map.cursor(alloc);
    while let Some(entry) = cursor.next() {
        let entry = entry.expect(rt, "memory");
        entries.push(entry).expect(rt, "memory");
    }
    assert!(rt; cursor.next().is_none());
    entries
}

/// The items of a cursor from the back.
fn walked_back<R: Abort, L: Leaf<u64, u64>>(rt: &R, alloc: Global, map: &Sums<L, 32>) -> Entries {
    let mut entries = Vec::new(alloc);
    for entry in map.cursor(alloc).rev() {
        let entry = entry.expect(rt, "memory");
        entries.push(entry).expect(rt, "memory");
    }
    entries
}

/// The items of a cursor between two places.
fn walked_between<R: Abort, L: Leaf<u64, u64>>(
    rt: &R,
    alloc: Global,
    map: &Sums<L, 32>,
    from: u64,
    to: u64,
) -> Entries {
    let mut entries = Vec::new(alloc);
    let mut cursor = map.cursor_between(alloc, from, to);
    while let Some(entry) = cursor.next() {
        let entry = entry.expect(rt, "memory");
        entries.push(entry).expect(rt, "memory");
    }
    entries
}

/// The keys of a cursor that is asked in turn at its front and its back, until it has none.
fn keys_in_turn<R: Abort, L: Leaf<u64, u64>>(rt: &R, alloc: Global, map: &Sums<L, 32>) -> Vec<u64> {
    let mut keys = Vec::new(alloc);
    let mut cursor = map.cursor(alloc);
    while let Some(entry) = cursor.next() {
        let entry = entry.expect(rt, "memory");
        keys.push(entry.0).expect(rt, "memory");
        if let Some(entry) = cursor.next_back() {
            let entry = entry.expect(rt, "memory");
            keys.push(entry.0).expect(rt, "memory");
        }
    }
    assert!(rt; cursor.next_back().is_none());
    keys
}

/// Asserts that the cursor over a map of these entries gives them.
fn assert_walked_counted<R: Abort, L: Leaf<u64, u64>, C: Ledger>(
    rt: &R,
    alloc: Global,
    entries: &[(u64, u64)],
    blank: Blank,
)
    requires { IsFresh C.name C.parts blank }
{
    let mut steps = Steps::<C>::start(blank);
    let map = map_of::<R, L, 32, C>(rt, alloc, entries, &mut steps);
    assert_eq!(rt; walked(rt, alloc, &map).as_slice(), entries);
}

fn assert_walked<R: Abort, L: Leaf<u64, u64>>(rt: &R, alloc: Global, count: u64) {
    let entries = thirds(rt, alloc, count);
    assert_walked_counted::<R, L, Brand>(rt, alloc, &entries, Blank::new(1));
}

/// The entries that a map lends.
fn lent<R: Abort>(rt: &R, alloc: Global, map: &Sums<PlainLeaf<u64, u64>, 32>) -> Entries {
    let mut entries = Vec::new(alloc);
    let mut lending = map.iter_ref();
    while let Some(entry) = lending.next() {
        entries.push((*entry.0, *entry.1)).expect(rt, "memory");
    }
    assert!(rt; lending.next().is_none());
    entries
}

/// Asserts that a map of these entries, whose keys are multiples of 3, lends each, and nothing at the keys between.
fn assert_lent_counted<R: Abort, C: Ledger>(
    rt: &R,
    alloc: Global,
    entries: &[(u64, u64)],
    blank: Blank,
)
    requires { IsFresh C.name C.parts blank }
{
    let mut steps = Steps::<C>::start(blank);
    let map = map_of::<R, PlainLeaf<u64, u64>, 32, C>(rt, alloc, entries, &mut steps);
    assert_eq!(rt; lent(rt, alloc, &map).as_slice(), entries);
    for entry in entries {
        let found = map.get_ref(&entry.0, &mut steps).copied();
        assert_eq!(rt; found, Some(entry.1));
        let behind = entry.0.wrapping_add(1);
        assert!(rt; map.get_ref(&behind, &mut steps).is_none());
    }
}

fn assert_lent<R: Abort>(rt: &R, alloc: Global, count: u64) {
    let entries = thirds(rt, alloc, count);
    assert_lent_counted::<R, Brand>(rt, alloc, &entries, Blank::new(1));
}

#[test]
fn a_map_in_plain_blocks_lends_its_values(rt: HostRuntime) {
    for count in [0, 1, 64, 65, 1000] {
        assert_lent(&rt, rt.alloc(), count);
    }
}

/// Asserts that a map of these entries, whose keys are multiples of 3, has each key and none between.
fn assert_keys_counted<R: Abort, L: Leaf<u64, u64>, C: Ledger>(
    rt: &R,
    alloc: Global,
    entries: &[(u64, u64)],
    blank: Blank,
)
    requires { IsFresh C.name C.parts blank }
{
    let mut steps = Steps::<C>::start(blank);
    let map = map_of::<R, L, 32, C>(rt, alloc, entries, &mut steps);
    for entry in entries {
        assert!(rt; map.contains_key(&entry.0, &mut steps));
        let behind = entry.0.wrapping_add(1);
        assert!(rt; !map.contains_key(&behind, &mut steps));
    }
}

fn assert_keys<R: Abort, L: Leaf<u64, u64>>(rt: &R, alloc: Global, count: u64) {
    let entries = thirds(rt, alloc, count);
    assert_keys_counted::<R, L, Brand>(rt, alloc, &entries, Blank::new(1));
}

#[test]
fn a_map_has_its_keys_and_no_others(rt: HostRuntime) {
    for count in [0, 1, 65, 1000] {
        assert_keys::<HostRuntime, PlainLeaf<u64, u64>>(&rt, rt.alloc(), count);
        assert_keys::<HostRuntime, DiffLeaf<u64>>(&rt, rt.alloc(), count);
    }
}

#[test]
fn a_cursor_gives_each_entry_once(rt: HostRuntime) {
    for count in [0, 1, 64, 65, 1000] {
        assert_walked::<HostRuntime, PlainLeaf<u64, u64>>(&rt, rt.alloc(), count);
        assert_walked::<HostRuntime, DiffLeaf<u64>>(&rt, rt.alloc(), count);
    }
}

/// Those entries of every third number that stand at the places from `from` on, without `to` and what follows it.
fn thirds_between<R: Abort>(rt: &R, alloc: Global, count: u64, from: u64, to: u64) -> Entries {
    let mut entries = Vec::new(alloc);
    for at in 0..count {
        if at >= from && at < to {
            let key = at.wrapping_mul(3);
            entries
                .push((key, key.wrapping_mul(2)))
                .expect(rt, "memory");
        }
    }
    entries
}

/// The entries of every third number, from the last on.
fn thirds_falling<R: Abort>(rt: &R, alloc: Global, count: u64) -> Entries {
    let mut entries = thirds(rt, alloc, count);
    entries.as_mut_slice().reverse();
    entries
}

/// Every third number below thrice the count, the least, the greatest, the next least and so on.
fn thirds_in_turn<R: Abort>(rt: &R, alloc: Global, count: u64) -> Vec<u64> {
    let mut keys = Vec::new(alloc);
    for at in 0..count {
        let pairs = at / 2;
        let place = if at % 2 == 0 {
            pairs
        } else {
            count.wrapping_sub(pairs).wrapping_sub(1)
        };
        keys.push(place.wrapping_mul(3)).expect(rt, "memory");
    }
    keys
}

/// The map of every third number in blocks of a kind.
fn thirds_map<R: Abort, L: Leaf<u64, u64>, C: Ledger>(
    rt: &R,
    alloc: Global,
    count: u64,
    steps: &mut Steps<C>,
) -> Sums<L, 32> {
    let entries = thirds(rt, alloc, count);
    map_of::<R, L, 32, C>(rt, alloc, &entries, steps)
}

fn assert_both_ends_counted<R: Abort, L: Leaf<u64, u64>, C: Ledger>(
    rt: &R,
    alloc: Global,
    count: u64,
    blank: Blank,
)
    requires { IsFresh C.name C.parts blank }
{
    let mut steps = Steps::<C>::start(blank);
    let map = thirds_map::<R, L, C>(rt, alloc, count, &mut steps);
    let falling = thirds_falling(rt, alloc, count);
    assert_eq!(rt; walked_back(rt, alloc, &map).as_slice(), falling.as_slice());
    let keys = thirds_in_turn(rt, alloc, count);
    assert_eq!(rt; keys_in_turn(rt, alloc, &map).as_slice(), keys.as_slice());
}

fn assert_both_ends<R: Abort, L: Leaf<u64, u64>>(rt: &R, alloc: Global, count: u64) {
    assert_both_ends_counted::<R, L, Brand>(rt, alloc, count, Blank::new(1));
}

#[test]
fn a_cursor_gives_each_entry_once_from_both_ends(rt: HostRuntime) {
    for count in [0, 1, 64, 65, 1000] {
        assert_both_ends::<HostRuntime, PlainLeaf<u64, u64>>(&rt, rt.alloc(), count);
        assert_both_ends::<HostRuntime, DiffLeaf<u64>>(&rt, rt.alloc(), count);
    }
}

fn assert_between_counted<R: Abort, L: Leaf<u64, u64>, C: Ledger>(
    rt: &R,
    alloc: Global,
    from: u64,
    to: u64,
    blank: Blank,
)
    requires { IsFresh C.name C.parts blank }
{
    let mut steps = Steps::<C>::start(blank);
    let map = thirds_map::<R, L, C>(rt, alloc, 300, &mut steps);
    let wanted = thirds_between(rt, alloc, 300, from, to);
    let found = walked_between(rt, alloc, &map, from, to);
    assert_eq!(rt; found.as_slice(), wanted.as_slice());
}

fn assert_between<R: Abort, L: Leaf<u64, u64>>(rt: &R, alloc: Global, from: u64, to: u64) {
    assert_between_counted::<R, L, Brand>(rt, alloc, from, to, Blank::new(1));
}

const PLACES: [(u64, u64); 7] = [
    (0, 0),
    (0, 1),
    (10, 75),
    (150, 300),
    (290, 2000),
    (75, 10),
    (300, 301),
];

#[test]
fn a_cursor_between_two_places(rt: HostRuntime) {
    for places in PLACES.iter() {
        assert_between::<HostRuntime, PlainLeaf<u64, u64>>(&rt, rt.alloc(), places.0, places.1);
        assert_between::<HostRuntime, DiffLeaf<u64>>(&rt, rt.alloc(), places.0, places.1);
    }
}

#[test]
fn maps_cross_threads(rt: HostRuntime) {
    let coded: CodedMap<SumMax<u64>> = CodedMap::empty();
    map_crosses(&coded, &coded.cursor(rt.alloc()));
}
