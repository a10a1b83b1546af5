//! What is moved of a map that is given up.
ghost use Rattle.map_model.specs.Balance.{IsBlockSize};
ghost use Rattle.std.specs.Ordering.{nat_cmp};
ghost use Rattle.map_model.specs.Entries.{IsIncreasing};

use crate::changes::ENTRIES;
use crate::tracked::{Shares, Tracked, TrackedMap, tracked_evens};
use aug_map::Map;
use aug_monoid::{First, Share};
use fork_join::{Cut, FreeGate};
use std::alloc::Global;
use std::marker::Sync;
use std::process::Abort;
use std::thread::Threads;

/// How many entries the list has.
const FEW: u64 = 16;

/// Odd keys, far from one another, in order.
fn few<'a, R: Abort>(rt: &R, alloc: Global, shares: &'a Shares) -> Vec<(u64, Tracked<'a>)>
    ensures { IsIncreasing nat_cmp result.items }
{
    let mut entries = Vec::new(alloc);
    for place in 0..FEW {
        entries
            .push((512 * place + 1, Tracked::new(place, shares)))
            .expect(rt, "memory");
    }
    let map: TrackedMap<'a, 1> = Map::build_alone(alloc, &entries).expect(rt, "memory");
    let _size = map.size(); // for the proof alone: keys rise
    map.to_vec(alloc).expect(rt, "memory")
}

/// The map of the first even numbers.
fn many<'a, R: Abort, const B: usize>(
    rt: &R,
    alloc: Global,
    shares: &'a Shares,
) -> TrackedMap<'a, B> {
    let entries = tracked_evens(alloc, ENTRIES, shares).expect(rt, "memory");
    Map::build_alone(alloc, &entries).expect(rt, "memory")
}

/// The size of a union in threads, and how often it shares values of the map that is given up and of the list.
fn moved<R: Threads + Abort + Sync, const B: usize>(rt: &R, alloc: Global) -> (u64, u64, u64) {
    let ours = Shares::new();
    let theirs = Shares::new();
    let map = many::<R, B>(rt, alloc, &ours);
    let list = few(rt, alloc, &theirs);
    ours.take();
    theirs.take();
    let cut = Cut::new(4, 1);
    let united = map
        .union_into(rt, alloc, &FreeGate, cut, &list, &First)
        .expect(rt, "memory");
    (united.size(), ours.take(), theirs.take())
}

/// The same on one thread.
fn moved_alone<R: Abort, const B: usize>(rt: &R, alloc: Global) -> (u64, u64, u64) {
    let ours = Shares::new();
    let theirs = Shares::new();
    let map = many::<R, B>(rt, alloc, &ours);
    let list = few(rt, alloc, &theirs);
    ours.take();
    theirs.take();
    let united = map
        .union_into_alone(alloc, &list, &First)
        .expect(rt, "memory");
    (united.size(), ours.take(), theirs.take())
}

/// Whether a union shares values of a map with another owner, and those of no more than a path for each entry of the list.
fn shares_paths<R: Abort, const B: usize>(rt: &R, alloc: Global) -> bool
    requires { IsBlockSize B }
{
    let ours = Shares::new();
    let theirs = Shares::new();
    let map = many::<R, B>(rt, alloc, &ours);
    let list = few(rt, alloc, &theirs);
    let copy = map.share(alloc).expect(rt, "memory");
    ours.take();
    let united = map
        .union_into_alone(alloc, &list, &First)
        .expect(rt, "memory");
    let shared = ours.take();
    let path = copy.height() as u64 + 1;
    united.size() == ENTRIES + FEW && 0 < shared && shared <= FEW * (2 * B as u64 + path)
}

/// Pairs far from one another: every second one of a new key, and the others of keys that the map has.
fn puts<'a, R: Abort>(rt: &R, alloc: Global, shares: &'a Shares) -> Vec<(u64, Tracked<'a>)> {
    let mut pairs = Vec::new(alloc);
    for place in 0..FEW {
        let key = 512 * place + place % 2;
        pairs
            .push((key, Tracked::new(place, shares)))
            .expect(rt, "memory");
    }
    pairs
}

/// The size of a map after puts in threads, and how often they share values of the map that is given up.
fn put_moved<R: Threads + Abort + Sync, const B: usize>(rt: &R, alloc: Global) -> (u64, u64) {
    let ours = Shares::new();
    let theirs = Shares::new();
    let map = many::<R, B>(rt, alloc, &ours);
    let pairs = puts(rt, alloc, &theirs);
    ours.take();
    let after = map
        .multi_put_into(rt, alloc, &FreeGate, Cut::new(4, 1), &pairs)
        .expect(rt, "memory");
    (after.size(), ours.take())
}

/// The same on one thread.
fn put_moved_alone<R: Abort, const B: usize>(rt: &R, alloc: Global) -> (u64, u64) {
    let ours = Shares::new();
    let theirs = Shares::new();
    let map = many::<R, B>(rt, alloc, &ours);
    let pairs = puts(rt, alloc, &theirs);
    ours.take();
    let after = map.multi_put_into_alone(alloc, &pairs).expect(rt, "memory");
    (after.size(), ours.take())
}

/// Asserts that puts share no value of a map with one owner.
fn assert_puts_move<R: Threads + Abort + Sync, const B: usize>(rt: &R, alloc: Global) {
    let wanted = (ENTRIES + FEW / 2, 0);
    assert_eq!(rt; put_moved::<R, B>(rt, alloc), wanted);
    assert_eq!(rt; put_moved_alone::<R, B>(rt, alloc), wanted);
}

#[test]
fn many_puts_into_a_map_with_one_owner_move_its_entries(rt: HostRuntime) {
    assert_puts_move::<HostRuntime, 1>(&rt, rt.alloc());
    assert_puts_move::<HostRuntime, 2>(&rt, rt.alloc());
    assert_puts_move::<HostRuntime, 32>(&rt, rt.alloc());
}

#[test]
fn a_union_into_a_map_with_one_owner_moves_its_entries(rt: HostRuntime) {
    let wanted = (ENTRIES + FEW, 0, FEW);
    assert_eq!(rt; moved::<HostRuntime, 1>(&rt, rt.alloc()), wanted);
    assert_eq!(rt; moved::<HostRuntime, 2>(&rt, rt.alloc()), wanted);
    assert_eq!(rt; moved::<HostRuntime, 32>(&rt, rt.alloc()), wanted);
    assert_eq!(rt; moved_alone::<HostRuntime, 1>(&rt, rt.alloc()), wanted);
    assert_eq!(rt; moved_alone::<HostRuntime, 2>(&rt, rt.alloc()), wanted);
    assert_eq!(rt; moved_alone::<HostRuntime, 32>(&rt, rt.alloc()), wanted);
}

#[test]
fn a_union_into_a_map_with_two_owners_copies_a_path_for_each_entry(rt: HostRuntime) {
    assert!(rt; shares_paths::<HostRuntime, 1>(&rt, rt.alloc()));
    assert!(rt; shares_paths::<HostRuntime, 2>(&rt, rt.alloc()));
    assert!(rt; shares_paths::<HostRuntime, 32>(&rt, rt.alloc()));
}
