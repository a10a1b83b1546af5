//! Operations by chance, on a served map and on a plain sorted list.
ghost use Rattle.std.specs.Prelude.{◌<◌};

use crate::plain::{Chance, Entries, apply_plainly};
use aug_monoid::Share;
use fork_join::{Cut, FreeGate, On};
use meeting::Meeting;
use served_map::{Op, Served, change_by};
use std::alloc::Global;
use std::marker::Sync;
use std::process::Abort;
use std::thread::Threads;
use versions::{Batch, State};

fn push_batch<R: Abort>(rt: &R, alloc: Global, batches: &mut Vec<Batch<Op>>, ops: &[Op]) {
    let ops = Vec::from_slice(alloc, ops).expect(rt, "memory");
    let batch = Batch::new(alloc, ops).expect(rt, "memory");
    batches.push(batch).expect(rt, "memory");
}

/// Two batches of the operations.
fn halves<R: Abort>(rt: &R, alloc: Global, ops: &[Op]) -> Vec<Batch<Op>> {
    let (first, second): (&[Op], &[Op]) = ops.split_at(ops.len() / 2);
    let mut batches = Vec::new(alloc);
    push_batch(rt, alloc, &mut batches, first);
    push_batch(rt, alloc, &mut batches, second);
    batches
}

/// The map after operations, in two batches.
fn after<R: Threads + Abort + Sync>(
    rt: &R,
    alloc: Global,
    cut: Cut,
    served: &Served,
    ops: &[Op],
) -> Served {
    let batches = halves(rt, alloc, ops);
    let new = served.apply(rt, alloc, &FreeGate, cut, batches.as_slice());
    new.expect(rt, "memory")
}

/// Asserts that a map has the entries of a plain list.
fn assert_same<R: Abort>(rt: &R, alloc: Global, served: &Served, list: &Entries) {
    let entries = served.map().to_vec(alloc).expect(rt, "memory");
    assert_eq!(rt; entries.as_slice(), list.as_slice());
}

/// Applies lists of up to 239 operations on 64 keys within a cut, each to what the last one left, and to a plain list.
fn run<R: Threads + Abort + Sync>(rt: &R, alloc: Global, cut: Cut, seed: u64, count: u64) {
    let mut chance = Chance::new(seed, 64);
    let mut served = Served::new();
    let mut list = Vec::new(alloc);
    for _turn in 0..count {
        let length = chance.next() % 240;
        let ops = chance.ops(rt, alloc, length);
        served = after(rt, alloc, cut, &served, &ops);
        apply_plainly(rt, &mut list, &ops);
        assert_same(rt, alloc, &served, &list);
    }
}

#[test]
fn one_worker_in_ones_leaves_what_a_plain_list_has(rt: HostRuntime) {
    run(&rt, rt.alloc(), Cut::new(1, 1), 1, 350);
}

#[test]
fn one_worker_in_thousands_leaves_what_a_plain_list_has(rt: HostRuntime) {
    run(&rt, rt.alloc(), Cut::new(1, 1024), 2, 350);
}

#[test]
fn four_workers_in_ones_leave_what_a_plain_list_has(rt: HostRuntime) {
    run(&rt, rt.alloc(), Cut::new(4, 1), 3, 300);
}

#[test]
fn four_workers_in_thousands_leave_what_a_plain_list_has(rt: HostRuntime) {
    run(&rt, rt.alloc(), Cut::new(4, 1024), 4, 400);
}

#[test]
fn sixty_four_workers_in_ones_leave_what_a_plain_list_has(rt: HostRuntime) {
    run(&rt, rt.alloc(), Cut::new(64, 1), 5, 200);
}

#[test]
fn sixty_four_workers_in_thousands_leave_what_a_plain_list_has(rt: HostRuntime) {
    run(&rt, rt.alloc(), Cut::new(64, 1024), 6, 400);
}

/// Asserts that so many operations in one batch leave what they leave of a plain list, and answers whether halves met.
fn long_batch<R: Threads + Abort + Sync>(rt: &R, alloc: Global, count: u64) -> bool {
    let ops = Chance::new(7, 1_000_000).ops(rt, alloc, count);
    let mut list = Vec::new(alloc);
    apply_plainly(rt, &mut list, &ops);
    let mut batches = Vec::new(alloc);
    push_batch(rt, alloc, &mut batches, &ops);
    let gate = Meeting::new();
    let on = On {
        rt,
        gate: &gate,
        cut: Cut::new(2, 1),
    };
    let served = change_by(on, alloc, &Served::new(), &batches);
    assert_same(rt, alloc, &served.expect(rt, "memory"), &list);
    gate.was_met()
}

#[test]
fn the_halves_of_a_long_batch_meet(rt: HostRuntime) {
    assert!(rt; long_batch(&rt, rt.alloc(), 10_000));
}

/// Applies lists of so many operations on some keys, and asserts that each leaves what it leaves of a plain list.
fn run_long<R: Threads + Abort + Sync>(rt: &R, alloc: Global, cut: Cut, keys: u64, counts: &[u64])
    requires { 0 < keys }
{
    let mut chance = Chance::new(8, keys);
    let mut served = Served::new();
    let mut list = Vec::new(alloc);
    for count in counts {
        let ops = chance.ops_without_wipes(rt, alloc, *count);
        apply_plainly(rt, &mut list, &ops);
        served = after(rt, alloc, cut, &served, &ops);
        assert_same(rt, alloc, &served, &list);
    }
}

/// Many operations on an empty map, few for each of many entries, and many again.
const COUNTS: &[u64] = &[5_000, 70, 4_500, 100];

#[test]
fn many_and_few_operations_by_one_worker_leave_what_a_plain_list_has(rt: HostRuntime) {
    run_long(&rt, rt.alloc(), Cut::new(1, 1024), 1_000_000, COUNTS);
}

#[test]
fn many_and_few_operations_by_four_workers_leave_what_a_plain_list_has(rt: HostRuntime) {
    run_long(&rt, rt.alloc(), Cut::new(4, 1), 20_000, COUNTS);
}

/// The map after operations, in two batches, where it is given up.
fn given_up<R: Threads + Abort + Sync>(
    rt: &R,
    alloc: Global,
    served: Served,
    ops: &[Op],
) -> Served {
    let batches = halves(rt, alloc, ops);
    let on = On {
        rt,
        gate: &FreeGate,
        cut: Cut::new(2, 1),
    };
    let new = served.changed(on, alloc, batches.as_slice());
    new.expect(rt, "memory")
}

/// The map after operations, where it is given up. Asserts that a share that was taken before stays as it was.
fn given_up_beside_a_share<R: Threads + Abort + Sync>(
    rt: &R,
    alloc: Global,
    served: Served,
    list: &Entries,
    ops: &[Op],
) -> Served {
    let share = served.share(alloc).expect(rt, "memory");
    let new = given_up(rt, alloc, served, ops);
    assert_same(rt, alloc, &share, list);
    new
}

/// Applies lists of operations on 1000 keys, each to the map that the last one left, which is given up, and to a plain list. Of every
/// second map there is a share.
fn run_given_up<R: Threads + Abort + Sync>(rt: &R, alloc: Global, counts: &[u64]) {
    let mut chance = Chance::new(9, 1000);
    let mut served = Served::new();
    let mut list = Vec::new(alloc);
    for count in counts {
        let ops = chance.ops_without_wipes(rt, alloc, *count);
        served = given_up(rt, alloc, served, &ops);
        apply_plainly(rt, &mut list, &ops);
        assert_same(rt, alloc, &served, &list);
        let ops = chance.ops(rt, alloc, *count);
        served = given_up_beside_a_share(rt, alloc, served, &list, &ops);
        apply_plainly(rt, &mut list, &ops);
        assert_same(rt, alloc, &served, &list);
    }
}

/// Many operations, few, which are applied one by one, and many again.
const GIVEN_UP: &[u64] = &[3_000, 40, 40, 500, 40];

#[test]
fn a_share_stays_as_it_was_where_its_map_is_given_up(rt: HostRuntime) {
    run_given_up(&rt, rt.alloc(), GIVEN_UP);
}
