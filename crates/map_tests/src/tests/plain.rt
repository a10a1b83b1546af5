//! Maps beside a plain sorted list, on random operations.
ghost use Rattle.aug_monoid.specs.Fresh.{IsFresh};

use super::sums::{Entries, Sums, assert_has, assert_made};
use aug_map::Map;
use aug_monoid::{Leaf, Steps};
use diff_leaf::DiffLeaf;
use leaf_blocks::PlainLeaf;
use map_model::{entries_between, keys_below, value_at, with_value, without_key};
use std::alloc::Global;
use std::marker::Brand;
use std::process::Abort;
use std::sync::ledger::{Blank, Ledger};

/// Asserts that a map answers as a list at a key, and from it up to the twentieth number after it.
fn assert_alike<R: Abort, L: Leaf<u64, u64>, const B: usize, C: Ledger>(
    rt: &R,
    alloc: Global,
    map: &Sums<L, B>,
    list: &[(u64, u64)],
    key: u64,
    steps: &mut Steps<C>,
) {
    assert_has(rt, alloc, map, list);
    let found = map.get(alloc, &key, steps).expect(rt, "memory");
    assert_eq!(rt; found, value_at(list, &key));
    assert_eq!(rt; map.rank(&key, steps) as usize, keys_below(list, key));
    let hi = key.saturating_add(20);
    let wanted = entries_between(alloc, list, key, hi).expect(rt, "memory");
    assert_made(rt, alloc, map.slice(alloc, &key, &hi), &wanted);
}

/// A change at a key: a value to be put, or none for a removal.
type Change = (u64, Option<u64>);

/// The change that a number gives.
fn change_of(number: u64) -> Change {
    let val = if number >> 60 < 11 {
        Some(number >> 32)
    } else {
        None
    };
    ((number >> 40) % 100, val)
}

/// The map after a change.
fn map_after<R: Abort, L: Leaf<u64, u64>, const B: usize, C: Ledger>(
    rt: &R,
    alloc: Global,
    map: &Sums<L, B>,
    change: Change,
    steps: &mut Steps<C>,
) -> Sums<L, B> {
    let new = match change.1 {
        Some(val) => map.put(alloc, change.0, val, steps),
        None => map.del(alloc, &change.0, steps),
    };
    new.expect(rt, "memory")
}

/// The list after a change.
fn list_after<R: Abort>(rt: &R, alloc: Global, list: &[(u64, u64)], change: Change) -> Entries {
    let new = match change.1 {
        Some(val) => with_value(alloc, list, change.0, val),
        None => without_key(alloc, list, change.0),
    };
    new.expect(rt, "memory")
}

/// Runs random operations on a map and a list.
fn run_in<R: Abort, L: Leaf<u64, u64>, const B: usize, C: Ledger>(
    rt: &R,
    alloc: Global,
    seed: u64,
    steps: &mut Steps<C>,
) {
    let mut map: Sums<L, B> = Map::empty();
    let mut list: Entries = Vec::new(alloc);
    let mut number = seed;
    for _turn in 0..300 {
        number = number
            .wrapping_mul(6364136223846793005)
            .wrapping_add(1442695040888963407);
        let change = change_of(number);
        map = map_after(rt, alloc, &map, change, steps);
        list = list_after(rt, alloc, &list, change);
        assert_alike(rt, alloc, &map, &list, change.0, steps);
    }
}

/// The same for blocks of 1, 2 and 32 entries.
fn run_counted<R: Abort, L: Leaf<u64, u64>, C: Ledger>(
    rt: &R,
    alloc: Global,
    seed: u64,
    blank: Blank,
)
    requires { IsFresh C.name C.parts blank }
{
    let mut steps = Steps::<C>::start(blank);
    run_in::<R, L, 1, C>(rt, alloc, seed, &mut steps);
    run_in::<R, L, 2, C>(rt, alloc, seed, &mut steps);
    run_in::<R, L, 32, C>(rt, alloc, seed, &mut steps);
}

fn run<R: Abort, L: Leaf<u64, u64>>(rt: &R, alloc: Global, seed: u64) {
    run_counted::<R, L, Brand>(rt, alloc, seed, Blank::new(1));
}

#[test]
fn maps_answer_as_a_sorted_list(rt: HostRuntime) {
    run::<HostRuntime, PlainLeaf<u64, u64>>(&rt, rt.alloc(), 1);
    run::<HostRuntime, DiffLeaf<u64>>(&rt, rt.alloc(), 2);
}
