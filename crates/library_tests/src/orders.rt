//! Orders of small graphs in which each edge goes forwards, and cycles, which were found by hand. Where memory is refused, a test ends
//! here.
use fork_join::{Cut, FreeGate};
use graph_order::{Sorted, topological_order};
use graph_snap::{Edge, Graph};
use std::alloc::Global;
use std::marker::Sync;
use std::process::Abort;
use std::thread::Threads;

/// What a sort of the graph with some edges comes to.
fn sorted<R: Threads + Abort + Sync>(rt: &R, alloc: Global, edges: &[Edge]) -> Sorted {
    let graph = Graph::new()
        .add_edges(rt, alloc, &FreeGate, Cut::new(2, 1024), edges)
        .expect(rt, "memory");
    topological_order(alloc, &graph).expect(rt, "memory")
}

fn order_of<R: Threads + Abort + Sync>(rt: &R, alloc: Global, edges: &[Edge]) -> Vec<u64> {
    match sorted(rt, alloc, edges) {
        Sorted::Order(order) => order,
        Sorted::Cycle(_) => panic!(rt; "an order"),
    }
}

fn cycle_of<R: Threads + Abort + Sync>(rt: &R, alloc: Global, edges: &[Edge]) -> Vec<u64> {
    match sorted(rt, alloc, edges) {
        Sorted::Order(_) => panic!(rt; "a cycle"),
        Sorted::Cycle(cycle) => cycle,
    }
}

fn edges<R: Abort>(rt: &R, alloc: Global, pairs: &[(u64, u64)]) -> Vec<Edge> {
    let mut list = Vec::new(alloc);
    for (from, to) in pairs {
        let edge = Edge {
            from: *from,
            to: *to,
        };
        list.push(edge).expect(rt, "memory");
    }
    list
}

/// The path 30, 7, 12, 4, 9 with short cuts. Its one order is not that of the numbers.
const SHORT_CUTS: &[(u64, u64)] = &[(4, 9), (7, 4), (7, 12), (12, 4), (30, 7), (30, 12)];

#[test]
fn each_edge_of_an_order_goes_forwards(rt: HostRuntime) {
    let list = edges(&rt, rt.alloc(), SHORT_CUTS);
    let order = order_of(&rt, rt.alloc(), &list);
    assert_eq!(rt; order.as_slice(), [30, 7, 12, 4, 9].as_slice());
}

/// A way from 1 into the only cycle, of 2, 3 and 4, and a way out of it.
const AROUND: &[(u64, u64)] = &[(1, 2), (2, 3), (3, 4), (4, 2), (4, 5)];

#[test]
fn a_cycle_has_neither_the_way_into_it_nor_the_way_out(rt: HostRuntime) {
    let list = edges(&rt, rt.alloc(), AROUND);
    let mut cycle = cycle_of(&rt, rt.alloc(), &list);
    cycle.sort().expect(&rt, "memory");
    assert_eq!(rt; cycle.as_slice(), [2, 3, 4].as_slice());
}

#[test]
fn a_loop_is_a_cycle_of_one_vertex(rt: HostRuntime) {
    let list = edges(&rt, rt.alloc(), &[(1, 5), (5, 5)]);
    let cycle = cycle_of(&rt, rt.alloc(), &list);
    assert_eq!(rt; cycle.as_slice(), [5].as_slice());
}

#[test]
fn the_graph_without_edges_has_the_order_of_no_vertex(rt: HostRuntime) {
    assert_eq!(rt; order_of(&rt, rt.alloc(), &[]).len(), 0);
}

/// Edges that lead from 0 on to `length`, one vertex after another.
fn chain<R: Abort>(rt: &R, alloc: Global, length: u64) -> Vec<Edge> {
    let mut list = Vec::new(alloc);
    for to in 1..length.saturating_add(1) {
        let from = to.saturating_sub(1);
        list.push(Edge { from, to }).expect(rt, "memory");
    }
    list
}

// A search by calls would have a frame of the stack for each vertex.
#[test]
fn a_long_path_is_searched_in_a_list(rt: HostRuntime) {
    let alloc = rt.alloc();
    let order = order_of(&rt, alloc, &chain(&rt, alloc, 10_000));
    assert_eq!(rt; order.len(), 10_001);
    for (place, vertex) in order.iter().enumerate() {
        assert_eq!(rt; *vertex, place as u64);
    }
}
