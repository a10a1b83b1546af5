//! Components of graphs whose vertices were sorted out by hand, and of long paths. Where memory is refused, a test ends here.
use fork_join::{Cut, FreeGate, Gate};
use graph_comp::{Labelled, components};
use graph_snap::{Edge, Graph};
use meeting::Meeting;
use std::alloc::Global;
use std::marker::Sync;
use std::process::Abort;
use std::sync::atomic::{AtomicU64, Ordering};
use std::thread::Threads;

/// Two cliques of three, the second of higher numbers, a loop at 9, and an edge that leads to a lower number.
const CLIQUES: [(u64, u64); 11] = [
    (1, 2),
    (2, 3),
    (3, 1),
    (2, 1),
    (12, 10),
    (10, 11),
    (11, 12),
    (12, 11),
    (9, 9),
    (7, 5),
    (6, 7),
];

fn edges<R: Abort>(rt: &R, alloc: Global, pairs: &[(u64, u64)]) -> Vec<Edge> {
    let mut list = Vec::new(alloc);
    for (from, to) in pairs {
        let edge = Edge {
            from: *from,
            to: *to,
        };
        list.push(edge).expect(rt, "memory");
    }
    list
}

fn graph_of<R: Threads + Abort + Sync>(rt: &R, alloc: Global, list: &[Edge]) -> Graph {
    let graph = Graph::new().add_edges(rt, alloc, &FreeGate, Cut::new(2, 1024), list);
    graph.expect(rt, "memory")
}

/// The graph with some edges, without some others.
fn less<R: Threads + Abort + Sync>(
    rt: &R,
    alloc: Global,
    cut: Cut,
    added: &[(u64, u64)],
    removed: &[(u64, u64)],
) -> Graph {
    let graph = graph_of(rt, alloc, &edges(rt, alloc, added));
    let removed = edges(rt, alloc, removed);
    let less = graph.cut_edges(rt, alloc, &FreeGate, cut, &removed);
    less.expect(rt, "memory")
}

fn components_of<R: Threads + Abort + Sync>(
    rt: &R,
    alloc: Global,
    cut: Cut,
    graph: &Graph,
) -> Vec<Labelled> {
    components(rt, alloc, &FreeGate, cut, graph).expect(rt, "memory")
}

/// Asserts what the components of the graph with some edges, without some others, are.
fn assert_components<R: Threads + Abort + Sync>(
    rt: &R,
    alloc: Global,
    cut: Cut,
    added: &[(u64, u64)],
    removed: &[(u64, u64)],
    wanted: &[(u64, u64)],
) {
    let found = components_of(rt, alloc, cut, &less(rt, alloc, cut, added, removed));
    assert_eq!(rt; found.len(), wanted.len());
    for (entry, pair) in found.iter().zip(wanted) {
        assert_eq!(rt; (entry.vertex, entry.label), *pair);
    }
}

#[test]
fn the_graph_without_edges_has_no_components(rt: HostRuntime) {
    assert_components(&rt, rt.alloc(), Cut::new(4, 1), &[], &[], &[]);
}

const OF_CLIQUES: &[(u64, u64)] = &[
    (1, 1),
    (2, 1),
    (3, 1),
    (5, 5),
    (6, 5),
    (7, 5),
    (9, 9),
    (10, 10),
    (11, 10),
    (12, 10),
];

#[test]
fn cliques_a_loop_and_a_path_are_components(rt: HostRuntime) {
    assert_components(&rt, rt.alloc(), Cut::new(4, 1), &CLIQUES, &[], OF_CLIQUES);
}

const PATH: &[(u64, u64)] = &[(4, 3), (3, 8), (8, 1)];

const OF_PATH: &[(u64, u64)] = &[(1, 1), (3, 3), (4, 3), (8, 1)];

#[test]
fn an_edge_that_is_cut_parts_a_component(rt: HostRuntime) {
    assert_components(&rt, rt.alloc(), Cut::new(1, 1), PATH, &[(3, 8)], OF_PATH);
}

/// The edges of a star: from the vertex of the greatest number to all others.
fn star<R: Abort>(rt: &R, alloc: Global, size: u64) -> Vec<Edge> {
    let mut list = Vec::new(alloc);
    for to in 5..size {
        list.push(Edge { from: size, to }).expect(rt, "memory");
    }
    list
}

/// The edges of a path through `size` vertices, each of which is reached from the one before by a step round a circle of numbers.
fn path<R: Abort>(rt: &R, alloc: Global, size: u64, step: u64) -> Vec<Edge> {
    let mut list = Vec::new(alloc);
    let mut from: u64 = 0;
    for _turn in 1..size {
        let to = from.wrapping_add(step) % size;
        list.push(Edge { from, to }).expect(rt, "memory");
        from = to;
    }
    list
}

/// How many vertices there are, and whether each has the label.
fn all_have<R: Threads + Abort + Sync>(
    rt: &R,
    alloc: Global,
    list: &[Edge],
    label: u64,
) -> (usize, bool) {
    let graph = graph_of(rt, alloc, list);
    let found = components_of(rt, alloc, Cut::new(4, 1024), &graph);
    let all = found.iter().all(|entry| entry.label == label);
    (found.len(), all)
}

#[test]
fn a_star_is_one_component(rt: HostRuntime) {
    let list = star(&rt, rt.alloc(), 20_000);
    assert_eq!(rt; all_have(&rt, rt.alloc(), &list, 5), (19_996, true));
}

#[test]
fn a_long_path_in_order_is_one_component(rt: HostRuntime) {
    let list = path(&rt, rt.alloc(), 100_000, 1);
    assert_eq!(rt; all_have(&rt, rt.alloc(), &list, 0), (100_000, true));
}

#[test]
fn a_long_path_in_leaps_is_one_component(rt: HostRuntime) {
    let list = path(&rt, rt.alloc(), 100_000, 61_803);
    assert_eq!(rt; all_have(&rt, rt.alloc(), &list, 0), (100_000, true));
}

/// Edges that hang each vertex up to `depth` below the one before it, and then as many that begin above them and lead to the last one.
fn deep<R: Abort>(rt: &R, alloc: Global, depth: u64) -> Vec<Edge> {
    let mut list = Vec::new(alloc);
    for turn in 1..depth {
        let from = depth.saturating_add(turn);
        let to = depth.saturating_sub(turn);
        for (from, to) in [
            (from, to),
            (from, to.saturating_add(1)),
            (from.saturating_add(depth), depth),
        ] {
            list.push(Edge { from, to }).expect(rt, "memory");
        }
    }
    list
}

// Where each climb from the last one went all the way, they would take minutes, and a test has one.
#[test]
fn a_deep_tree_is_not_climbed_each_time(rt: HostRuntime) {
    let list = deep(&rt, rt.alloc(), 300_000);
    assert_eq!(rt; all_have(&rt, rt.alloc(), &list, 1), (899_998, true));
}

/// Whether two halves met.
fn halves_meet<R: Threads + Abort + Sync>(rt: &R, alloc: Global, list: &[Edge]) -> bool {
    let graph = graph_of(rt, alloc, list);
    let gate = Meeting::new();
    let _list = components(rt, alloc, &gate, Cut::new(2, 1), &graph).expect(rt, "memory");
    gate.was_met()
}

#[test]
fn the_halves_of_the_edges_meet(rt: HostRuntime) {
    let list = path(&rt, rt.alloc(), 1000, 1);
    assert!(rt; halves_meet(&rt, rt.alloc(), &list));
}

/// A gate at which the halves of a first fork wait for one another, and then those of a second one.
#[derive(Drop)]
struct TwoForks {
    entered: AtomicU64,
    first: Meeting,
    second: Meeting,
}

impl Gate for TwoForks {
    fn enter(&self, place: u64) {
        if self.entered.fetch_add(1, Ordering::SeqCst) < 2 {
            self.first.enter(place);
        } else {
            self.second.enter(place);
        }
    }
}

/// Whether the halves met of the edges whose ends are gathered, and of those that are made forests.
fn both_meet<R: Threads + Abort + Sync>(rt: &R, alloc: Global, list: &[Edge]) -> (bool, bool) {
    let graph = graph_of(rt, alloc, list);
    let gate = TwoForks {
        entered: AtomicU64::new(0),
        first: Meeting::new(),
        second: Meeting::new(),
    };
    let _list = components(rt, alloc, &gate, Cut::new(2, 1), &graph).expect(rt, "memory");
    (gate.first.was_met(), gate.second.was_met())
}

#[test]
fn the_forests_of_the_halves_meet_too(rt: HostRuntime) {
    let list = path(&rt, rt.alloc(), 1000, 1);
    assert_eq!(rt; both_meet(&rt, rt.alloc(), &list), (true, true));
}

/// Asserts which edges are listed of the graph of some.
fn assert_listed<R: Threads + Abort + Sync>(
    rt: &R,
    alloc: Global,
    pairs: &[(u64, u64)],
    wanted: &[(u64, u64)],
) {
    let graph = graph_of(rt, alloc, &edges(rt, alloc, pairs));
    let list = graph.list(alloc).expect(rt, "memory");
    assert_eq!(rt; list.len(), wanted.len());
    for (edge, pair) in list.iter().zip(wanted) {
        assert_eq!(rt; (edge.from, edge.to), *pair);
    }
}

const MIXED: &[(u64, u64)] = &[(3, 3), (1, 2), (2, 1), (1, 2), (1, 1), (2, 4)];

const SORTED: &[(u64, u64)] = &[(1, 1), (1, 2), (2, 1), (2, 4), (3, 3)];

#[test]
fn edges_are_listed_in_order(rt: HostRuntime) {
    assert_listed(&rt, rt.alloc(), MIXED, SORTED);
}
