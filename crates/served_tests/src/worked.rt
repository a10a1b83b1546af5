//! What batches of operations leave of a map. Where memory is refused, a test ends here.

use fork_join::{Cut, FreeGate};
use served_map::{Op, Served};
use std::alloc::Global;
use std::marker::Sync;
use std::process::Abort;
use std::thread::Threads;
use versions::{Batch, State};

fn batch_of<R: Abort>(rt: &R, alloc: Global, ops: &[Op]) -> Batch<Op> {
    let ops = Vec::from_slice(alloc, ops).expect(rt, "memory");
    Batch::new(alloc, ops).expect(rt, "memory")
}

/// The map after the operations of batches.
fn after<R: Threads + Abort + Sync>(
    rt: &R,
    alloc: Global,
    start: &Served,
    batches: &[&[Op]],
) -> Served {
    let mut list = Vec::new(alloc);
    for ops in batches {
        list.push(batch_of(rt, alloc, *ops)).expect(rt, "memory");
    }
    let cut = Cut::new(1, 1024);
    let served = start.apply(rt, alloc, &FreeGate, cut, list.as_slice());
    served.expect(rt, "memory")
}

/// Asserts what the operations of batches leave of a map.
fn assert_after<R: Threads + Abort + Sync>(
    rt: &R,
    alloc: Global,
    start: &Served,
    batches: &[&[Op]],
    wanted: &[(u64, u64)],
) {
    let served = after(rt, alloc, start, batches);
    let left = served.map().to_vec(alloc).expect(rt, "memory");
    assert_eq!(rt; left.as_slice(), wanted);
}

const ONE_KEY: &[Op] = &[
    Op::Put { key: 1, val: 10 },
    Op::Add { key: 1, val: 5 },
    Op::Add { key: 2, val: 7 },
];

const ALL_KINDS: &[Op] = &[
    Op::Add {
        key: 1,
        val: u64::MAX,
    },
    Op::Add { key: 1, val: 1 },
    Op::Del { key: 2 },
    Op::Add { key: 2, val: 3 },
];

const WIPED: &[Op] = &[Op::Wipe { lo: 0, hi: 1 }, Op::Add { key: 1, val: 4 }];

const NO_RANGE: &[Op] = &[Op::Wipe { lo: 5, hi: 1 }, Op::Put { key: 3, val: 9 }];

const WHOLE: &[Op] = &[Op::Wipe {
    lo: 0,
    hi: u64::MAX,
}];

const PUT: &[Op] = &[Op::Put { key: 1, val: 10 }];

const ADD: &[Op] = &[Op::Add { key: 1, val: 20 }];

/// Batches on the empty map and the entries that they leave: a value that is put and added to; sums that stop at the greatest number; a wipe between operations; one from above to
/// below, which removes nothing; one of all keys; and two batches in either order.
const ROWS: &[(&[&[Op]], &[(u64, u64)])] = &[
    (&[ONE_KEY], &[(1, 15), (2, 7)]),
    (&[ALL_KINDS], &[(1, u64::MAX), (2, 3)]),
    (&[ALL_KINDS, WIPED], &[(1, 4), (2, 3)]),
    (&[ONE_KEY, NO_RANGE], &[(1, 15), (2, 7), (3, 9)]),
    (&[ONE_KEY, NO_RANGE, WHOLE], &[]),
    (&[PUT, ADD], &[(1, 30)]),
    (&[ADD, PUT], &[(1, 10)]),
];

fn assert_rows<R: Threads + Abort + Sync>(
    rt: &R,
    alloc: Global,
    rows: &[(&[&[Op]], &[(u64, u64)])],
) {
    for (batches, wanted) in rows {
        assert_after(rt, alloc, &Served::new(), batches, wanted);
    }
}

#[test]
fn batches_leave_what_they_should(rt: HostRuntime) {
    assert_rows(&rt, rt.alloc(), ROWS);
}

const SET_AND_GONE: &[Op] = &[Op::Put { key: 9, val: 1 }, Op::Del { key: 9 }];

/// 35 changes of another key, which leave nothing, and then operations, in one batch: so many are not applied one by one.
fn among_many<R: Abort>(rt: &R, alloc: Global, ops: &[Op]) -> Vec<Op> {
    let mut all = Vec::new(alloc);
    for _turn in 0..35 {
        all.extend_from_slice(SET_AND_GONE).expect(rt, "memory");
    }
    all.extend_from_slice(ops).expect(rt, "memory");
    all
}

/// Asserts what operations among many in one batch leave of a map.
fn assert_among<R: Threads + Abort + Sync>(
    rt: &R,
    alloc: Global,
    start: &Served,
    ops: &[Op],
    wanted: &[(u64, u64)],
) {
    let all = among_many(rt, alloc, ops);
    assert_after(rt, alloc, start, &[all.as_slice()], wanted);
}

#[test]
fn operations_leave_the_same_among_many(rt: HostRuntime) {
    let empty = Served::new();
    assert_among(&rt, rt.alloc(), &empty, ONE_KEY, &[(1, 15), (2, 7)]);
    assert_among(&rt, rt.alloc(), &empty, ALL_KINDS, &[(1, u64::MAX), (2, 3)]);
    assert_among(&rt, rt.alloc(), &empty, NO_RANGE, &[(3, 9)]);
}

const TWICE: &[Op] = &[Op::Add { key: 1, val: 20 }, Op::Add { key: 1, val: 5 }];

const ANEW: &[Op] = &[Op::Del { key: 1 }, Op::Add { key: 1, val: 20 }];

const LAST: &[Op] = &[Op::Put { key: 1, val: 3 }, Op::Put { key: 1, val: 4 }];

#[test]
fn what_was_there_counts_until_it_is_removed(rt: HostRuntime) {
    let start = after(&rt, rt.alloc(), &Served::new(), &[PUT]);
    assert_among(&rt, rt.alloc(), &start, TWICE, &[(1, 35)]);
    assert_among(&rt, rt.alloc(), &start, ANEW, &[(1, 20)]);
    assert_among(&rt, rt.alloc(), &start, LAST, &[(1, 4)]);
}
