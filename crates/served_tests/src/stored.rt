//! A store of a served map, with two callers.

use batch_store::{Batch, Caller, Store};
use fork_join::{Cut, FreeGate};
use served_map::{Op, Served};
use std::alloc::Global;
use std::marker::Sync;
use std::process::Abort;
use std::sync::Wait;
use std::thread::Threads;

/// The caller sends a batch of one operation.
fn send<R: Abort>(rt: &R, alloc: Global, caller: &mut Caller<Served>, op: Op) {
    let ops = Vec::from_slice(alloc, &[op]).expect(rt, "memory");
    let batch = Batch::new(alloc, ops).expect(rt, "memory");
    assert!(rt; caller.submit(0, batch).is_ok());
}

fn turn<R: Threads + Wait + Abort + Sync>(rt: &R, alloc: Global, store: &mut Store<Served>) {
    store
        .turn(rt, alloc, &FreeGate, Cut::new(1, 1024))
        .expect(rt, "memory");
}

/// Asserts what a caller reads.
fn assert_read<R: Wait + Abort>(
    rt: &R,
    alloc: Global,
    caller: &mut Caller<Served>,
    wanted: &[(u64, u64)],
) {
    let version = caller.snapshot(rt, alloc).expect(rt, "memory");
    let entries = version.state().map().to_vec(alloc).expect(rt, "memory");
    assert_eq!(rt; entries.as_slice(), wanted);
}

#[test]
fn a_caller_reads_what_both_sent(rt: HostRuntime) {
    let alloc = rt.alloc();
    let (mut store, mut callers) = Store::start(alloc, Served::new(), 2).expect(&rt, "memory");
    let mut second = callers.pop().expect(&rt, "a caller");
    let mut first = callers.pop().expect(&rt, "a caller");
    send(&rt, alloc, &mut second, Op::Put { key: 1, val: 10 });
    turn(&rt, alloc, &mut store);
    send(&rt, alloc, &mut first, Op::Add { key: 1, val: 20 });
    turn(&rt, alloc, &mut store);
    assert_read(&rt, alloc, &mut second, &[(1, 30)]);
}

/// The number of the version that a caller tries to take, and of the one that it takes then.
fn numbers<R: Wait + Abort>(rt: &R, alloc: Global, caller: &mut Caller<Served>) -> (u64, u64) {
    let tried = match caller.try_snapshot(alloc) {
        Ok(version) => version.number(),
        Err(_) => panic!(rt; "a version"),
    };
    let taken = caller.snapshot(rt, alloc).expect(rt, "memory");
    (tried, taken.number())
}

#[test]
fn a_store_over_the_empty_map_begins_with_number_0(rt: HostRuntime) {
    let alloc = rt.alloc();
    let (_store, mut callers) = Store::start(alloc, Served::new(), 1).expect(&rt, "memory");
    let mut caller = callers.pop().expect(&rt, "a caller");
    assert_eq!(rt; numbers(&rt, alloc, &mut caller), (0, 0));
}
