//! Searches of a graph.

use crate::checksum::Checksum;
use crate::graphs::{random_graph, vertices_of};
use crate::numbers::Numbers;
use crate::timed::{Timed, since};
use anyhow::Result;
use aug_monoid::NoMemory;
use graph_snap::{Graph, Reached};
use std::alloc::Global;
use std::rt::Clock;
use std::time::Instant;

/// How many searches are timed.
const SEARCHES: u64 = 10;

fn add_reached(checksum: &mut Checksum, found: &[Reached]) {
    for reached in found {
        checksum.add(reached.vertex);
        checksum.add(reached.distance);
    }
}

fn search_all(
    alloc: Global,
    graph: &Graph,
    numbers: &mut Numbers,
    vertices: u64,
) -> Result<u64, NoMemory> {
    let mut checksum = Checksum::new();
    for _ in 0..SEARCHES {
        let found = graph.bfs_alone(alloc, numbers.below(vertices))?;
        add_reached(&mut checksum, &found);
    }
    Ok(checksum.sum())
}

/// Asks what walks from random vertices reach.
pub(crate) fn time_bfs(rt: &impl Clock, alloc: Global, size: u64, seed: u64) -> Result<Timed> {
    let mut numbers = Numbers::new(seed);
    let graph = random_graph(alloc, &mut numbers, size)?;
    let start = Instant::now(rt)?;
    let checksum = search_all(alloc, &graph, &mut numbers, vertices_of(size))?;
    let nanoseconds = since(rt, start)?;
    Ok(Timed {
        checksum,
        nanoseconds,
    })
}

// The first of the vertices that are farthest from a vertex.
fn farthest(alloc: Global, graph: &Graph, from: u64) -> Result<u64, NoMemory> {
    let (mut vertex, mut greatest) = (from, 0);
    for reached in graph.bfs_alone(alloc, from)? {
        if greatest < reached.distance {
            vertex = reached.vertex;
            greatest = reached.distance;
        }
    }
    Ok(vertex)
}

// Random vertices, each with one that is farthest from it.
fn far_pairs(
    alloc: Global,
    graph: &Graph,
    numbers: &mut Numbers,
    vertices: u64,
) -> Result<Vec<(u64, u64)>, NoMemory> {
    let mut pairs = Vec::new(alloc);
    for _ in 0..SEARCHES {
        let from = numbers.below(vertices);
        pairs.push((from, farthest(alloc, graph, from)?))?;
    }
    Ok(pairs)
}

// The least number of edges from one vertex to another, by a search of all that can be reached; `u64::MAX` where no walk leads there.
fn distance(alloc: Global, graph: &Graph, from: u64, to: u64) -> Result<u64, NoMemory> {
    let found = graph.bfs_alone(alloc, from)?;
    match found.binary_search_by(|reached| reached.vertex.cmp(&to)) {
        Ok(place) => Ok(found[place].distance),
        Err(_) => Ok(u64::MAX),
    }
}

fn distances(alloc: Global, graph: &Graph, pairs: &[(u64, u64)]) -> Result<u64, NoMemory> {
    let mut checksum = Checksum::new();
    for (from, to) in pairs {
        checksum.add(distance(alloc, graph, *from, *to)?);
    }
    Ok(checksum.sum())
}

/// Asks how far vertices are that are farthest, each by a search of all that can be reached.
pub(crate) fn time_distance(rt: &impl Clock, alloc: Global, size: u64, seed: u64) -> Result<Timed> {
    let mut numbers = Numbers::new(seed);
    let graph = random_graph(alloc, &mut numbers, size)?;
    let pairs = far_pairs(alloc, &graph, &mut numbers, vertices_of(size))?;
    let start = Instant::now(rt)?;
    let checksum = distances(alloc, &graph, &pairs)?;
    let nanoseconds = since(rt, start)?;
    Ok(Timed {
        checksum,
        nanoseconds,
    })
}

// The number of edges of a least path; `u64::MAX` where there is none.
fn path_length(alloc: Global, graph: &Graph, from: u64, to: u64) -> Result<u64, NoMemory> {
    match graph.path(alloc, from, to)? {
        Some(path) => Ok((path.len() as u64).saturating_sub(1)),
        None => Ok(u64::MAX),
    }
}

fn path_lengths(alloc: Global, graph: &Graph, pairs: &[(u64, u64)]) -> Result<u64, NoMemory> {
    let mut checksum = Checksum::new();
    for (from, to) in pairs {
        checksum.add(path_length(alloc, graph, *from, *to)?);
    }
    Ok(checksum.sum())
}

/// Asks for least paths from vertices to those that are farthest from them.
pub(crate) fn time_path(rt: &impl Clock, alloc: Global, size: u64, seed: u64) -> Result<Timed> {
    let mut numbers = Numbers::new(seed);
    let graph = random_graph(alloc, &mut numbers, size)?;
    let pairs = far_pairs(alloc, &graph, &mut numbers, vertices_of(size))?;
    let start = Instant::now(rt)?;
    let checksum = path_lengths(alloc, &graph, &pairs)?;
    let nanoseconds = since(rt, start)?;
    Ok(Timed {
        checksum,
        nanoseconds,
    })
}
