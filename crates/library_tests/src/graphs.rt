//! Small graphs, whose counts and searches were found by hand. Where memory is refused, a test ends here.
use aug_monoid::Share;
use fork_join::{Cut, FreeGate};
use graph_snap::{Edge, Graph, Reached};
use meeting::Meeting;
use std::alloc::Global;
use std::marker::Sync;
use std::process::Abort;
use std::thread::Threads;

/// A loop at 3, a loop at 1, and an edge that is named twice.
const ADDED: [(u64, u64); 6] = [(1, 2), (3, 3), (1, 2), (2, 1), (1, 1), (2, 4)];

/// All edges of 2 and 3, one of them twice, and two that the graph hasn't.
const CUT: [(u64, u64); 6] = [(2, 1), (3, 3), (9, 9), (2, 1), (2, 4), (1, 5)];

fn edges<R: Abort>(rt: &R, alloc: Global, pairs: &[(u64, u64)]) -> Vec<Edge> {
    let mut list = Vec::new(alloc);
    for (from, to) in pairs {
        let edge = Edge {
            from: *from,
            to: *to,
        };
        list.push(edge).expect(rt, "memory");
    }
    list
}

/// The graph of some edges without some others.
fn graph_of<R: Threads + Abort + Sync>(
    rt: &R,
    alloc: Global,
    added: &[(u64, u64)],
    cut: &[(u64, u64)],
) -> Graph {
    let list = edges(rt, alloc, added);
    let without = edges(rt, alloc, cut);
    let cut = Cut::new(2, 1);
    let all = Graph::new().add_edges(rt, alloc, &FreeGate, cut, &list);
    let less = all
        .expect(rt, "memory")
        .cut_edges(rt, alloc, &FreeGate, cut, &without);
    less.expect(rt, "memory")
}

/// How many edges and vertices there are, and the degrees of 1 and 2.
fn counts<R: Abort>(rt: &R, alloc: Global, graph: &Graph) -> (u64, u64, u64, u64) {
    let first = graph.degree(alloc, 1).expect(rt, "memory");
    let second = graph.degree(alloc, 2).expect(rt, "memory");
    (graph.edges(), graph.vertices(), first, second)
}

#[test]
fn batches_with_loops_and_repeated_edges(rt: HostRuntime) {
    let all = graph_of(&rt, rt.alloc(), &ADDED, &[]);
    assert_eq!(rt; counts(&rt, rt.alloc(), &all), (5, 3, 2, 2));
    let left = graph_of(&rt, rt.alloc(), &ADDED, &CUT);
    assert_eq!(rt; counts(&rt, rt.alloc(), &left), (2, 1, 2, 0));
}

/// Asserts what the sizes of a graph's sets are, by vertex.
fn assert_sizes<R: Abort>(rt: &R, alloc: Global, graph: &Graph, wanted: &[u64]) {
    let entries = graph.map().to_vec(alloc).expect(rt, "memory");
    assert_eq!(rt; entries.len(), wanted.len());
    for (entry, size) in entries.iter().zip(wanted) {
        assert_eq!(rt; entry.1.map().size(), *size);
    }
}

#[test]
fn the_sets_of_a_snapshot(rt: HostRuntime) {
    let graph = graph_of(&rt, rt.alloc(), &ADDED, &[]);
    let share = graph.share(rt.alloc()).expect(&rt, "memory");
    assert_sizes(&rt, rt.alloc(), &share, &[2, 2, 1]);
}

/// Asserts what was reached, as vertices with their distances.
fn assert_reached<R: Abort>(rt: &R, list: &[Reached], wanted: &[(u64, u64)]) {
    assert_eq!(rt; list.len(), wanted.len());
    for (reached, pair) in list.iter().zip(wanted) {
        assert_eq!(rt; (reached.vertex, reached.distance), *pair);
    }
}

/// Asserts what a search finds.
fn assert_found<R: Threads + Abort + Sync>(
    rt: &R,
    alloc: Global,
    graph: &Graph,
    from: u64,
    wanted: &[(u64, u64)],
) {
    let list = graph
        .bfs(rt, alloc, &FreeGate, Cut::new(2, 1), from)
        .expect(rt, "memory");
    assert_reached(rt, &list, wanted);
}

const WAYS: &[(u64, u64)] = &[(5, 1), (1, 2), (2, 3), (3, 4), (1, 4), (4, 5), (7, 8)];

const BY_4: &[(u64, u64)] = &[(1, 0), (2, 1), (3, 2), (4, 1), (5, 2)];

const ROUND: &[(u64, u64)] = &[(1, 0), (2, 1), (3, 2), (4, 3), (5, 4)];

#[test]
fn a_search_by_the_shortest_way(rt: HostRuntime) {
    let all = graph_of(&rt, rt.alloc(), WAYS, &[]);
    assert_found(&rt, rt.alloc(), &all, 1, BY_4);
    let left = graph_of(&rt, rt.alloc(), WAYS, &[(1, 4), (8, 7)]);
    assert_found(&rt, rt.alloc(), &left, 1, ROUND);
}

/// Asserts what a search that stops at a distance finds.
fn assert_within<R: Abort>(
    rt: &R,
    alloc: Global,
    graph: &Graph,
    from: u64,
    most: u64,
    wanted: &[(u64, u64)],
) {
    let list = graph.within(alloc, from, most).expect(rt, "memory");
    assert_reached(rt, &list, wanted);
}

#[test]
fn a_search_that_stops_at_a_distance(rt: HostRuntime) {
    let alloc = rt.alloc();
    let graph = graph_of(&rt, alloc, WAYS, &[]);
    assert_within(&rt, alloc, &graph, 1, 0, &[(1, 0)]);
    assert_within(&rt, alloc, &graph, 1, 1, &[(1, 0), (2, 1), (4, 1)]);
    assert_within(&rt, alloc, &graph, 1, 2, BY_4);
    assert_within(&rt, alloc, &graph, 1, u64::MAX, BY_4);
    assert_within(&rt, alloc, &graph, 9, 3, &[(9, 0)]);
}

/// Asserts what the vertices of a walk of least length are.
fn assert_path<R: Abort>(rt: &R, alloc: Global, graph: &Graph, from: u64, to: u64, wanted: &[u64]) {
    let found = graph.path(alloc, from, to).expect(rt, "memory");
    let path = found.expect(rt, "a path");
    assert_eq!(rt; path.as_slice(), wanted);
}

#[test]
fn a_path_by_the_shortest_way(rt: HostRuntime) {
    let alloc = rt.alloc();
    let all = graph_of(&rt, alloc, WAYS, &[]);
    assert_path(&rt, alloc, &all, 1, 5, &[1, 4, 5]);
    assert_path(&rt, alloc, &all, 5, 3, &[5, 1, 2, 3]);
    assert_path(&rt, alloc, &all, 7, 8, &[7, 8]);
    let left = graph_of(&rt, alloc, WAYS, &[(1, 4)]);
    assert_path(&rt, alloc, &left, 1, 5, &[1, 2, 3, 4, 5]);
}

#[test]
fn a_path_from_a_vertex_to_itself(rt: HostRuntime) {
    let alloc = rt.alloc();
    assert_path(&rt, alloc, &graph_of(&rt, alloc, &ADDED, &[]), 3, 3, &[3]);
    assert_path(&rt, alloc, &graph_of(&rt, alloc, WAYS, &[]), 1, 1, &[1]);
    assert_path(&rt, alloc, &Graph::new(), 9, 9, &[9]);
}

/// Whether a walk leads from a vertex to another.
fn leads<R: Abort>(rt: &R, alloc: Global, graph: &Graph, from: u64, to: u64) -> bool {
    let found = graph.path(alloc, from, to).expect(rt, "memory");
    found.is_some()
}

#[test]
fn no_path_where_no_walk_leads(rt: HostRuntime) {
    let alloc = rt.alloc();
    let graph = graph_of(&rt, alloc, WAYS, &[]);
    assert_eq!(rt; leads(&rt, alloc, &graph, 1, 8), false);
    assert_eq!(rt; leads(&rt, alloc, &graph, 8, 7), false);
    assert_eq!(rt; leads(&rt, alloc, &graph, 1, 9), false);
    assert_eq!(rt; leads(&rt, alloc, &graph, 9, 1), false);
    assert_eq!(rt; leads(&rt, alloc, &graph, 2, 1), true);
}

/// Edges that lead from 0 on to `length`, one vertex after another.
fn chain<R: Abort>(rt: &R, alloc: Global, length: u64) -> Vec<Edge> {
    let mut list = Vec::new(alloc);
    for to in 1..length.saturating_add(1) {
        let from = to.saturating_sub(1);
        list.push(Edge { from, to }).expect(rt, "memory");
    }
    list
}

// Where each search went on to the end, they would take minutes, and a test has one.
#[test]
fn a_search_that_stops_goes_no_further(rt: HostRuntime) {
    let alloc = rt.alloc();
    let list = chain(&rt, alloc, 50_000);
    let cut = Cut::new(2, 1024);
    let graph = Graph::new()
        .add_edges(&rt, alloc, &FreeGate, cut, &list)
        .expect(&rt, "memory");
    for _time in 0..5_000u64 {
        assert_within(&rt, alloc, &graph, 7, 2, &[(7, 0), (8, 1), (9, 2)]);
    }
}

/// The edges of the graph of `ADDED`, each turned round, in order.
const TURNED: &[(u64, u64)] = &[(1, 1), (1, 2), (2, 1), (3, 3), (4, 2)];

/// Asserts what edges there are, in order.
fn assert_edges<R: Abort>(rt: &R, alloc: Global, graph: &Graph, wanted: &[(u64, u64)]) {
    let list = graph.list(alloc).expect(rt, "memory");
    assert_eq!(rt; graph.edges(), wanted.len() as u64);
    assert_eq!(rt; list.len(), wanted.len());
    for (edge, pair) in list.iter().zip(wanted) {
        assert_eq!(rt; (edge.from, edge.to), *pair);
    }
}

/// Asserts what edges there are when each is turned round.
fn assert_reversed<R: Abort>(rt: &R, alloc: Global, graph: &Graph, wanted: &[(u64, u64)]) {
    let reversed = graph.reversed(alloc).expect(rt, "memory");
    assert_edges(rt, alloc, &reversed, wanted);
}

#[test]
fn each_edge_turned_round(rt: HostRuntime) {
    let alloc = rt.alloc();
    assert_reversed(&rt, alloc, &graph_of(&rt, alloc, &ADDED, &[]), TURNED);
    assert_reversed(&rt, alloc, &graph_of(&rt, alloc, &[(2, 9)], &[]), &[(9, 2)]);
    assert_reversed(&rt, alloc, &Graph::new(), &[]);
}

/// The edges of the graph of `ADDED`, in order.
const ALL: &[(u64, u64)] = &[(1, 1), (1, 2), (2, 1), (2, 4), (3, 3)];

/// Those of them that `CUT` leaves.
const LEFT: &[(u64, u64)] = &[(1, 1), (1, 2)];

#[test]
fn edges_are_added_and_cut_on_one_thread(rt: HostRuntime) {
    let alloc = rt.alloc();
    let list = edges(&rt, alloc, &ADDED);
    let all = Graph::new().add_edges_alone(alloc, &list);
    let all = all.expect(&rt, "memory");
    assert_edges(&rt, alloc, &all, ALL);
    let left = all.cut_edges_alone(alloc, &edges(&rt, alloc, &CUT));
    let left = left.expect(&rt, "memory");
    assert_edges(&rt, alloc, &left, LEFT);
    let again = left.add_edges_into_alone(alloc, &list);
    assert_edges(&rt, alloc, &again.expect(&rt, "memory"), ALL);
    assert_edges(&rt, alloc, &all, ALL);
}

/// The first vertex that does not fit 32 bits. Edges of smaller ones alone are put in order another way.
const WIDE: u64 = 0x1_0000_0000;

/// Vertices on both sides of it, of which some end in the bits of others; one edge is named twice, and the last one alone has none
/// beyond.
const FAR: [(u64, u64); 8] = [
    (WIDE + 1, 1),
    (WIDE - 1, WIDE),
    (1, WIDE + 1),
    (WIDE + 1, 1),
    (u64::MAX, 0),
    (WIDE, WIDE - 1),
    (0, u64::MAX),
    (1, 1),
];

/// The edges of `FAR` in order, each once.
const FAR_ALL: &[(u64, u64)] = &[
    (0, u64::MAX),
    (1, 1),
    (1, WIDE + 1),
    (WIDE - 1, WIDE),
    (WIDE, WIDE - 1),
    (WIDE + 1, 1),
    (u64::MAX, 0),
];

/// Two of its edges, and two that it hasn't.
const FAR_CUT: [(u64, u64); 4] = [(u64::MAX, 0), (WIDE + 1, WIDE + 1), (1, WIDE + 1), (2, 1)];

/// What they leave, with the edges of `LAST_SMALL` too.
const FAR_LEFT: &[(u64, u64)] = &[
    (0, 0),
    (0, u64::MAX),
    (1, 1),
    (WIDE - 1, 0),
    (WIDE - 1, WIDE - 1),
    (WIDE - 1, WIDE),
    (WIDE, WIDE - 1),
    (WIDE + 1, 1),
];

/// The last vertex that fits 32 bits.
const LAST_SMALL: [(u64, u64); 3] = [(WIDE - 1, WIDE - 1), (WIDE - 1, 0), (0, 0)];

#[test]
fn vertices_beyond_32_bits(rt: HostRuntime) {
    let alloc = rt.alloc();
    let list = edges(&rt, alloc, &FAR);
    let all = Graph::new().add_edges_alone(alloc, &list);
    let all = all.expect(&rt, "memory");
    assert_edges(&rt, alloc, &all, FAR_ALL);
    assert_edges(&rt, alloc, &graph_of(&rt, alloc, &FAR, &[]), FAR_ALL);
    let left = all.cut_edges_alone(alloc, &edges(&rt, alloc, &FAR_CUT));
    let left = left.expect(&rt, "memory");
    let more = left.add_edges_into_alone(alloc, &edges(&rt, alloc, &LAST_SMALL));
    assert_edges(&rt, alloc, &more.expect(&rt, "memory"), FAR_LEFT);
    assert_within(&rt, alloc, &all, 1, 9, &[(1, 0), (WIDE + 1, 1)]);
}

/// From 0 to each of 1 to 500, and from each of these to 501.
fn fan<R: Abort>(rt: &R, alloc: Global) -> Vec<(u64, u64)> {
    let mut pairs = Vec::new(alloc);
    for spoke in 1..501u64 {
        pairs.push((0, spoke)).expect(rt, "memory");
        pairs.push((spoke, 501)).expect(rt, "memory");
    }
    pairs
}

/// How many vertices a search of the fan finds, and whether the halves of a front of 500 met.
fn found_in_fan<R: Threads + Abort + Sync>(rt: &R, alloc: Global) -> (usize, bool) {
    let graph = graph_of(rt, alloc, &fan(rt, alloc), &[]);
    let gate = Meeting::new();
    let found = graph
        .bfs(rt, alloc, &gate, Cut::new(2, 500), 0)
        .expect(rt, "memory");
    (found.len(), gate.was_met())
}

#[test]
fn a_wide_front_is_searched_by_halves_that_meet(rt: HostRuntime) {
    assert_eq!(rt; found_in_fan(&rt, rt.alloc()), (502, true));
}

#[test]
fn neighbours_and_edges_that_are_there(rt: HostRuntime) {
    let alloc = rt.alloc();
    let graph = graph_of(&rt, alloc, &ADDED, &[]);
    let of_two = graph.neighbours(alloc, 2).expect(&rt, "memory");
    assert_eq!(rt; of_two.as_slice(), [1, 4].as_slice());
    let of_nine = graph.neighbours(alloc, 9).expect(&rt, "memory");
    assert_eq!(rt; of_nine.len(), 0);
    assert_eq!(rt; graph.has_edge(alloc, 3, 3).expect(&rt, "memory"), true);
    assert_eq!(rt; graph.has_edge(alloc, 2, 3).expect(&rt, "memory"), false);
    assert_eq!(rt; graph.has_edge(alloc, 9, 1).expect(&rt, "memory"), false);
    assert!(rt; graph.contains_edge(3, 3));
    assert!(rt; !graph.contains_edge(2, 3));
}

/// The vertices with an out-neighbour, one by one.
fn vertices_in<R: Abort>(rt: &R, alloc: Global, graph: &Graph) -> Vec<u64> {
    let mut vertices = Vec::new(alloc);
    for vertex in graph.vertices_iter() {
        vertices.push(vertex).expect(rt, "memory");
    }
    vertices
}

/// The out-neighbours of a vertex, one by one.
fn neighbours_in<R: Abort>(rt: &R, alloc: Global, graph: &Graph, vertex: u64) -> Vec<u64> {
    let mut neighbours = Vec::new(alloc);
    for neighbour in graph.neighbours_iter(alloc, vertex) {
        neighbours.push(neighbour).expect(rt, "memory");
    }
    neighbours
}

#[test]
fn vertices_and_neighbours_one_by_one(rt: HostRuntime) {
    let alloc = rt.alloc();
    let graph = graph_of(&rt, alloc, &ADDED, &[]);
    assert_eq!(rt; graph.out_degree(2), 2);
    assert_eq!(rt; graph.out_degree(9), 0);
    assert_eq!(rt;
        vertices_in(&rt, alloc, &graph).as_slice(),
        [1, 2, 3].as_slice()
    );
    assert_eq!(rt;
        neighbours_in(&rt, alloc, &graph, 2).as_slice(),
        [1, 4].as_slice()
    );
    assert_eq!(rt; neighbours_in(&rt, alloc, &graph, 9).len(), 0);
}
