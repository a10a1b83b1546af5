//! Least numbers of changes between stations, and an order of them, by a graph.

use anyhow::Result;
use graph_order::{Sorted, topological_order};
use graph_snap::{Edge, Graph, Reached};
use std::alloc::Global;

/// Lines between the stations 1 to 6, each way.
const LINES: &[(u64, u64)] = &[(1, 2), (2, 3), (3, 4), (4, 5), (5, 6), (1, 5)];

// An edge of each line.
fn one_way(alloc: Global, lines: &[(u64, u64)]) -> Result<Vec<Edge>> {
    let mut edges = Vec::new(alloc);
    for &(from, to) in lines {
        edges.push(Edge { from, to })?;
    }
    Ok(edges)
}

// The two edges of each line.
fn both_ways(alloc: Global, lines: &[(u64, u64)]) -> Result<Vec<Edge>> {
    let mut edges = Vec::new(alloc);
    for &(from, to) in lines {
        edges.push(Edge { from, to })?;
        edges.push(Edge { from: to, to: from })?;
    }
    Ok(edges)
}

// How far a vertex is, where it was reached.
fn distance(reached: &[Reached], vertex: u64) -> Option<u64> {
    reached
        .iter()
        .find(|one| one.vertex == vertex)
        .map(|one| one.distance)
}

// The stations so that each line leads to a later one, or some of them that lines lead round.
fn order_of(alloc: Global, net: &Graph) -> Result<String> {
    let text = match topological_order(alloc, net)? {
        Sorted::Order(stations) => format!(in alloc; "in order {stations:?}")?,
        Sorted::Cycle(stations) => format!(in alloc; "round and round {stations:?}")?,
    };
    Ok(text)
}

/// How many lines one takes from station 1 to station 6, how many when a line is closed, and in which order the stations stand.
pub(crate) fn page(alloc: Global) -> Result<String> {
    let net = Graph::new().add_edges_alone(alloc, &both_ways(alloc, LINES)?)?;
    let today = net.cut_edges_alone(alloc, &both_ways(alloc, &[(1, 5)])?)?;
    let usual = distance(&net.bfs_alone(alloc, 1)?, 6);
    let now = distance(&today.bfs_alone(alloc, 1)?, 6);
    let there = Graph::new().add_edges_alone(alloc, &one_way(alloc, LINES)?)?;
    let text = format!(in alloc;
        "from 1 to 6: {usual:?} lines, and {now:?} while the one from 1 to 5 is closed\nneighbours of 5: {} and {}\none way: {}; both ways: {}\n",
        net.degree(alloc, 5)?,
        today.degree(alloc, 5)?,
        order_of(alloc, &there)?,
        order_of(alloc, &net)?
    )?;
    Ok(text)
}
