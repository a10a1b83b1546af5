//! Batches of the served states. What `change` forks enters no gate.

use crate::watch::sees_a_fork;
use aug_monoid::Share;
use fork_join::{Cut, FreeGate, On};
use served_graph::{GraphOp, ServedGraph};
use served_map::{Op, Served};
use std::alloc::Global;
use std::marker::Sync;
use std::process::Abort;
use std::rt::Files;
use std::sync::atomic::{AtomicBool, Ordering};
use std::thread;
use std::thread::Threads;
use versions::{Batch, State, SyncState};

/// How many batches a state is made of, and how many operations each has. So few are sorted on one thread.
const BATCHES: u64 = 24;

const OPS: u64 = 1000;

/// How often a state is changed while it is watched.
const TURNS: u64 = 40;

/// How often it is watched where it is to fork.
const RUNS: u64 = 50;

/// A batch of puts, whose keys are all over those of the other batches.
fn puts<R: Abort>(rt: &R, alloc: Global, batch: u64) -> Batch<Op> {
    let mut ops = Vec::new(alloc);
    for place in 0..OPS {
        let key = place.saturating_mul(25).saturating_add(batch);
        ops.push(Op::Put { key, val: place }).expect(rt, "memory");
    }
    Batch::new(alloc, ops).expect(rt, "memory")
}

/// A batch of edges, which begin all over those of the other batches.
fn edges<R: Abort>(rt: &R, alloc: Global, batch: u64) -> Batch<GraphOp> {
    let mut ops = Vec::new(alloc);
    for place in 0..OPS {
        let from = place.saturating_mul(25).saturating_add(batch);
        ops.push(GraphOp::Add { from, to: place })
            .expect(rt, "memory");
    }
    Batch::new(alloc, ops).expect(rt, "memory")
}

/// The state after one batch.
fn after<R: Threads + Abort + Sync, S: State>(
    rt: &R,
    alloc: Global,
    state: &S,
    cut: Cut,
    batch: &Batch<S::Op>,
) -> S {
    let batches = [batch.share(alloc).expect(rt, "memory")];
    let on = On {
        rt,
        gate: &FreeGate,
        cut,
    };
    state.change(on, alloc, &batches).expect(rt, "memory")
}

/// The map of all batches but the last.
fn big_map<R: Threads + Abort + Sync>(rt: &R, alloc: Global) -> Served {
    let mut served = Served::new();
    for batch in 0..BATCHES {
        served = after(rt, alloc, &served, Cut::new(1, 1), &puts(rt, alloc, batch));
    }
    served
}

/// The graph of all batches but the last.
fn big_graph<R: Threads + Abort + Sync>(rt: &R, alloc: Global) -> ServedGraph {
    let mut served = ServedGraph::new();
    for batch in 0..BATCHES {
        served = after(rt, alloc, &served, Cut::new(1, 1), &edges(rt, alloc, batch));
    }
    served
}

/// Changes a state often by the same batch, and then gives the sign that it is done.
fn change_often<R: Threads + Abort + Sync, S: State>(
    rt: &R,
    alloc: Global,
    state: &S,
    cut: Cut,
    batch: &Batch<S::Op>,
    done: &AtomicBool,
) {
    for _turn in 0..TURNS {
        let _changed = after(rt, alloc, state, cut, batch);
    }
    done.store(true, Ordering::SeqCst);
}

/// Whether a batch is seen to fork.
fn forks<R: Threads + Abort + Sync + Files + AllocGlobal, S: SyncState>(
    rt: &R,
    alloc: Global,
    state: &S,
    cut: Cut,
    batch: &Batch<S::Op>,
) -> bool {
    let done = AtomicBool::new(false);
    let (_changed, seen) = thread::join(
        rt,
        || change_often(rt, alloc, state, cut, batch, &done),
        || sees_a_fork(rt, &done),
    );
    seen
}

/// Whether one of many such runs is seen to fork: a busy machine may not show the threads of one.
fn one_forks<R: Threads + Abort + Sync + Files + AllocGlobal, S: SyncState>(
    rt: &R,
    alloc: Global,
    state: &S,
    cut: Cut,
    batch: &Batch<S::Op>,
) -> bool {
    for _ in 0..RUNS {
        if forks(rt, alloc, state, cut, batch) {
            return true;
        }
    }
    false
}

/// Whether it is on one worker, on two from too great a size on, and on two.
fn forks_by_cuts<R: Threads + Abort + Sync + Files + AllocGlobal, S: SyncState>(
    rt: &R,
    alloc: Global,
    state: &S,
    batch: &Batch<S::Op>,
) -> [bool; 3] {
    [
        forks(rt, alloc, state, Cut::new(1, 1), batch),
        forks(rt, alloc, state, Cut::new(2, 4294967296), batch),
        one_forks(rt, alloc, state, Cut::new(2, 1), batch),
    ]
}

#[test]
fn a_batch_of_a_served_map_forks_within_its_cut(rt: HostRuntime) {
    let map = big_map(&rt, rt.alloc());
    let batch = puts(&rt, rt.alloc(), BATCHES);
    assert_eq!(rt;
        forks_by_cuts(&rt, rt.alloc(), &map, &batch),
        [false, false, true]
    );
}

#[test]
fn a_batch_of_a_served_graph_forks_within_its_cut(rt: HostRuntime) {
    let graph = big_graph(&rt, rt.alloc());
    let batch = edges(&rt, rt.alloc(), BATCHES);
    assert_eq!(rt;
        forks_by_cuts(&rt, rt.alloc(), &graph, &batch),
        [false, false, true]
    );
}
