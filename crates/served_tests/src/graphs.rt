//! Operations on a served graph, by hand and by chance, and on a plain sorted list of edges.

use crate::plain::Chance;
use aug_monoid::Share;
use fork_join::{Cut, FreeGate, On};
use graph_snap::Graph;
use meeting::Meeting;
use served_graph::{GraphOp, ServedGraph, change_by};
use std::alloc::Global;
use std::marker::Sync;
use std::process::Abort;
use std::thread::Threads;
use versions::{Batch, State};

type Edges = Vec<(u64, u64)>;

/// Asserts that a graph has the edges of a list.
fn assert_edges<R: Abort>(rt: &R, alloc: Global, graph: &Graph, wanted: &[(u64, u64)]) {
    let edges = graph.list(alloc).expect(rt, "memory");
    assert_eq!(rt; edges.len(), wanted.len());
    for (edge, pair) in edges.iter().zip(wanted) {
        assert_eq!(rt; (edge.from, edge.to), *pair);
    }
}

fn push_batch<R: Abort>(rt: &R, alloc: Global, batches: &mut Vec<Batch<GraphOp>>, ops: &[GraphOp]) {
    let ops = Vec::from_slice(alloc, ops).expect(rt, "memory");
    let batch = Batch::new(alloc, ops).expect(rt, "memory");
    batches.push(batch).expect(rt, "memory");
}

/// Two batches of the operations.
fn halves<R: Abort>(rt: &R, alloc: Global, ops: &[GraphOp]) -> Vec<Batch<GraphOp>> {
    let (first, second): (&[GraphOp], &[GraphOp]) = ops.split_at(ops.len() / 2);
    let mut batches = Vec::new(alloc);
    push_batch(rt, alloc, &mut batches, first);
    push_batch(rt, alloc, &mut batches, second);
    batches
}

/// The graph after operations, in two batches.
fn after<R: Threads + Abort + Sync>(
    rt: &R,
    alloc: Global,
    cut: Cut,
    graph: &ServedGraph,
    ops: &[GraphOp],
) -> ServedGraph {
    let batches = halves(rt, alloc, ops);
    let new = graph.apply(rt, alloc, &FreeGate, cut, batches.as_slice());
    new.expect(rt, "memory")
}

/// Asserts what operations on the graph without edges leave, of it and of a share of it.
fn assert_after<R: Threads + Abort + Sync>(
    rt: &R,
    alloc: Global,
    ops: &[GraphOp],
    wanted: &[(u64, u64)],
) {
    let served = after(rt, alloc, Cut::new(2, 1), &ServedGraph::new(), ops);
    assert_edges(rt, alloc, served.graph(), wanted);
    let share = served.share(alloc).expect(rt, "memory");
    assert_edges(rt, alloc, share.graph(), wanted);
}

const PATH: [GraphOp; 2] = [
    GraphOp::Add { from: 2, to: 3 },
    GraphOp::Add { from: 1, to: 2 },
];

#[test]
fn two_edges_are_listed(rt: HostRuntime) {
    assert_after(&rt, rt.alloc(), &PATH, &[(1, 2), (2, 3)]);
}

/// An edge that is added and cut, one that is cut and added, and one that is cut in the second batch.
const TURNS: [GraphOp; 6] = [
    GraphOp::Add { from: 1, to: 1 },
    GraphOp::Cut { from: 1, to: 1 },
    GraphOp::Cut { from: 2, to: 9 },
    GraphOp::Add { from: 2, to: 9 },
    GraphOp::Add { from: 9, to: 2 },
    GraphOp::Cut { from: 9, to: 9 },
];

#[test]
fn the_last_operation_on_an_edge_counts(rt: HostRuntime) {
    assert_after(&rt, rt.alloc(), &TURNS, &[(2, 9), (9, 2)]);
}

/// An operation by chance on the edges between 8 vertices.
fn op_by_chance(chance: &mut Chance) -> GraphOp {
    let kind = chance.next() % 2;
    let from = chance.next() % 8;
    let to = chance.next() % 8;
    if kind == 0 {
        GraphOp::Add { from, to }
    } else {
        GraphOp::Cut { from, to }
    }
}

fn ops_by_chance<R: Abort>(rt: &R, alloc: Global, chance: &mut Chance, count: u64) -> Vec<GraphOp> {
    let mut ops = Vec::new(alloc);
    for _turn in 0..count {
        ops.push(op_by_chance(chance)).expect(rt, "memory");
    }
    ops
}

/// The edge is added to a plain sorted list, where it isn't there.
fn add<R: Abort>(rt: &R, list: &mut Edges, new: (u64, u64)) {
    let at = list.partition_point(|edge| *edge < new);
    if at == list.len() || list[at] != new {
        list.insert(at, new).expect(rt, "memory");
    }
}

/// Changes a plain list as an operation does.
fn step<R: Abort>(rt: &R, list: &mut Edges, op: &GraphOp) {
    match *op {
        GraphOp::Add { from, to } => add(rt, list, (from, to)),
        GraphOp::Cut { from, to } => list.retain(|edge| *edge != (from, to)),
    }
}

fn apply_plainly<R: Abort>(rt: &R, list: &mut Edges, ops: &[GraphOp]) {
    for op in ops {
        step(rt, list, op);
    }
}

/// Applies lists of up to 99 operations within a cut, each to what the last one left, and to a plain list.
fn run<R: Threads + Abort + Sync>(rt: &R, alloc: Global, cut: Cut, seed: u64) {
    let mut chance = Chance::new(seed, 64);
    let mut served = ServedGraph::new();
    let mut list = Vec::new(alloc);
    for _turn in 0..200 {
        let count = chance.next() % 100;
        let ops = ops_by_chance(rt, alloc, &mut chance, count);
        served = after(rt, alloc, cut, &served, &ops);
        apply_plainly(rt, &mut list, &ops);
        assert_edges(rt, alloc, served.graph(), &list);
    }
}

#[test]
fn one_worker_leaves_the_edges_of_a_plain_list(rt: HostRuntime) {
    run(&rt, rt.alloc(), Cut::new(1, 1), 11);
}

#[test]
fn four_workers_leave_the_edges_of_a_plain_list(rt: HostRuntime) {
    run(&rt, rt.alloc(), Cut::new(4, 1), 12);
}

/// Whether two halves met in a batch of so many operations.
fn halves_meet<R: Threads + Abort + Sync>(rt: &R, alloc: Global, count: u64) -> bool {
    let ops = ops_by_chance(rt, alloc, &mut Chance::new(13, 64), count);
    let batches = halves(rt, alloc, &ops);
    let gate = Meeting::new();
    let none = ServedGraph::new();
    let on = On {
        rt,
        gate: &gate,
        cut: Cut::new(2, 1),
    };
    let _served = change_by(on, alloc, &none, &batches).expect(rt, "memory");
    gate.was_met()
}

#[test]
fn the_halves_of_a_batch_of_edges_meet(rt: HostRuntime) {
    assert!(rt; halves_meet(&rt, rt.alloc(), 1000));
}
