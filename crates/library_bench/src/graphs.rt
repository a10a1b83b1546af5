//! Graphs that are made of edges.

use crate::checksum::Checksum;
use crate::numbers::Numbers;
use crate::timed::{Timed, since};
use anyhow::Result;
use aug_monoid::NoMemory;
use graph_snap::{Edge, Graph};
use std::alloc::Global;
use std::rt::Clock;
use std::time::Instant;

/// In how many batches edges are added.
const BATCHES: u64 = 100;

/// How many vertices a graph of so many edges has.
pub(crate) fn vertices_of(edges: u64) -> u64 {
    edges / 10
}

// As many random edges as are wanted, between the vertices of a graph of `size` edges.
fn random_edges(
    alloc: Global,
    numbers: &mut Numbers,
    count: u64,
    size: u64,
) -> Result<Vec<Edge>, NoMemory> {
    let vertices = vertices_of(size);
    let mut edges = Vec::new(alloc);
    for _ in 0..count {
        edges.push(Edge {
            from: numbers.below(vertices),
            to: numbers.below(vertices),
        })?;
    }
    Ok(edges)
}

/// A graph of as many random edges as are wanted, less those that come twice.
pub(crate) fn random_graph(
    alloc: Global,
    numbers: &mut Numbers,
    size: u64,
) -> Result<Graph, NoMemory> {
    let edges = random_edges(alloc, numbers, size, size)?;
    Graph::new().add_edges_alone(alloc, &edges)
}

// The checksum of all edges of a graph.
fn checksum_of(alloc: Global, graph: &Graph) -> Result<u64, NoMemory> {
    let mut checksum = Checksum::new();
    for edge in graph.list(alloc)? {
        checksum.add(edge.from);
        checksum.add(edge.to);
    }
    Ok(checksum.sum())
}

/// Adds many edges at once.
pub(crate) fn time_at_once(rt: &impl Clock, alloc: Global, size: u64, seed: u64) -> Result<Timed> {
    let edges = random_edges(alloc, &mut Numbers::new(seed), size, size)?;
    let start = Instant::now(rt)?;
    let graph = Graph::new().add_edges_alone(alloc, &edges)?;
    let nanoseconds = since(rt, start)?;
    Ok(Timed {
        checksum: checksum_of(alloc, &graph)?,
        nanoseconds,
    })
}

fn random_batches(
    alloc: Global,
    numbers: &mut Numbers,
    size: u64,
) -> Result<Vec<Vec<Edge>>, NoMemory> {
    let mut batches = Vec::new(alloc);
    for _ in 0..BATCHES {
        batches.push(random_edges(alloc, numbers, size / BATCHES, size)?)?;
    }
    Ok(batches)
}

fn added(alloc: Global, batches: &[Vec<Edge>]) -> Result<Graph, NoMemory> {
    let mut graph = Graph::new();
    for batch in batches {
        graph = graph.add_edges_into_alone(alloc, batch)?;
    }
    Ok(graph)
}

/// Adds edges in batches, each to a graph that is given up.
pub(crate) fn time_in_batches(
    rt: &impl Clock,
    alloc: Global,
    size: u64,
    seed: u64,
) -> Result<Timed> {
    let batches = random_batches(alloc, &mut Numbers::new(seed), size)?;
    let start = Instant::now(rt)?;
    let graph = added(alloc, &batches)?;
    let nanoseconds = since(rt, start)?;
    Ok(Timed {
        checksum: checksum_of(alloc, &graph)?,
        nanoseconds,
    })
}

/// Holds a graph, and asks how many edges it has.
pub(crate) fn time_held(rt: &impl Clock, alloc: Global, size: u64, seed: u64) -> Result<Timed> {
    let graph = random_graph(alloc, &mut Numbers::new(seed), size)?;
    let start = Instant::now(rt)?;
    let checksum = graph.edges();
    let nanoseconds = since(rt, start)?;
    Ok(Timed {
        checksum,
        nanoseconds,
    })
}
