//! Unions of maps that are given up, at concrete types, against plain lists.
ghost use Rattle.std.specs.Ordering.{nat_cmp};
ghost use Rattle.map_model.specs.Entries.{IsIncreasing};

use crate::runs::{Multiples, Sums, assert_has, assert_made, multiples_of};
use aug_map::IntoEntries;
use aug_monoid::{First, Leaf, NoMemory, Share};
use diff_leaf::DiffLeaf;
use fork_join::{Cut, FreeGate};
use leaf_blocks::PlainLeaf;
use std::alloc::Global;
use std::marker::{Send, Sync};
use std::process::Abort;
use std::thread::Threads;

// The entries of a map.
fn entries_of<R: Abort, L: Leaf<u64, u64>, const B: usize>(
    rt: &R,
    alloc: Global,
    map: &Sums<L, B>,
) -> Vec<(u64, u64)>
    ensures { IsIncreasing nat_cmp result.items }
{
    let _size = map.size(); // for the proof alone: keys rise
    map.to_vec(alloc).expect(rt, "memory")
}

// The entries of a union, key by key: at a key of both the value is the first one's.
fn united<R: Abort>(rt: &R, alloc: Global, a: Multiples, b: Multiples) -> Vec<(u64, u64)> {
    let mut entries = Vec::new(alloc);
    for key in 0..a.end.max(b.end) {
        if let Some(val) = a.value_at(key).or(b.value_at(key)) {
            entries.push((key, val)).expect(rt, "memory");
        }
    }
    entries
}

// The union of a map that is given up with a list, in threads or on one thread.
fn union_by<R: Threads + Sync, L: IntoEntries<u64, u64> + Send + Sync, const B: usize>(
    rt: &R,
    alloc: Global,
    cut: Option<Cut>,
    map: Sums<L, B>,
    list: &[(u64, u64)],
) -> Result<Sums<L, B>, NoMemory>
    requires { IsIncreasing nat_cmp list.now }
{
    match cut {
        Some(cut) => map.union_into(rt, alloc, &FreeGate, cut, list, &First),
        None => map.union_into_alone(alloc, list, &First),
    }
}

// Asserts what the union is of a map with a list, first while the map has another owner, which keeps its entries, and then of that
// owner's, which is the only one left.
fn assert_united<R: Threads + Abort + Sync, L: IntoEntries<u64, u64> + Send + Sync, const B: usize>(
    rt: &R,
    alloc: Global,
    cut: Option<Cut>,
    a: Multiples,
    b: Multiples,
) {
    let list = entries_of(
        rt,
        alloc,
        &b.built_alone::<R, PlainLeaf<u64, u64>, 1>(rt, alloc),
    );
    let wanted = united(rt, alloc, a, b);
    let map = a.built_alone::<R, L, B>(rt, alloc);
    let copy = map.share(alloc).expect(rt, "memory");
    assert_made(rt, alloc, union_by(rt, alloc, cut, map, &list), &wanted);
    assert_has(rt, alloc, &copy, &united(rt, alloc, a, a));
    assert_made(rt, alloc, union_by(rt, alloc, cut, copy, &list), &wanted);
}

// The same in blocks of three sizes.
fn assert_blocks<R: Threads + Abort + Sync, L: IntoEntries<u64, u64> + Send + Sync>(
    rt: &R,
    alloc: Global,
    cut: Option<Cut>,
    a: Multiples,
    b: Multiples,
) {
    assert_united::<R, L, 1>(rt, alloc, cut, a, b);
    assert_united::<R, L, 2>(rt, alloc, cut, a, b);
    assert_united::<R, L, 32>(rt, alloc, cut, a, b);
}

// The same on one thread, and in threads on one worker, on four and on 64.
fn assert_cuts<R: Threads + Abort + Sync, L: IntoEntries<u64, u64> + Send + Sync>(
    rt: &R,
    alloc: Global,
    a: Multiples,
    b: Multiples,
) {
    assert_blocks::<R, L>(rt, alloc, None, a, b);
    assert_blocks::<R, L>(rt, alloc, Some(Cut::new(1, 1)), a, b);
    assert_blocks::<R, L>(rt, alloc, Some(Cut::new(4, 1)), a, b);
    assert_blocks::<R, L>(rt, alloc, Some(Cut::new(64, 1)), a, b);
}

// Asserts what the unions of some pairs of maps and lists are.
fn assert_unions<R: Threads + Abort + Sync, L: IntoEntries<u64, u64> + Send + Sync>(
    rt: &R,
    alloc: Global,
) {
    let evens = multiples_of(2, 0, 3000);
    let none = multiples_of(1, 0, 0);
    assert_cuts::<R, L>(rt, alloc, evens, evens);
    assert_cuts::<R, L>(rt, alloc, evens, multiples_of(3, 0, 4500));
    assert_cuts::<R, L>(
        rt,
        alloc,
        multiples_of(1, 0, 1000),
        multiples_of(1, 1000, 1700),
    );
    assert_cuts::<R, L>(rt, alloc, multiples_of(999, 0, 9000), evens);
    assert_cuts::<R, L>(rt, alloc, evens, none);
    assert_cuts::<R, L>(rt, alloc, none, evens);
}

#[test]
fn a_map_that_is_given_up_is_united_key_by_key(rt: HostRuntime) {
    assert_unions::<HostRuntime, PlainLeaf<u64, u64>>(&rt, rt.alloc());
}

#[test]
fn coded_blocks_that_are_given_up_are_united_key_by_key(rt: HostRuntime) {
    assert_unions::<HostRuntime, DiffLeaf<u64>>(&rt, rt.alloc());
}
