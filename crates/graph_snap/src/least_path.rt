//! Walks of least length, found back through the fronts of a search, on one thread.
ghost use Rattle.std.specs.Prelude.{◌≡◌, map, is_some, IfOk, IsTrue, MatchOption};
ghost use Rattle.std.specs.List.{list_any};
ghost use Rattle.std.specs.Ordering.{nat_cmp};
ghost use Rattle.map_model.specs.Entries.{lookup};
ghost use Rattle.graph_snap.specs.Edges.{AreSets, edges_of};
ghost use Rattle.graph_snap.specs.Merging.{leads};
ghost use Rattle.graph_snap.specs.Walks.{AreFrontsTo, IsLeastPath, IsOutOfReach};

use crate::search::{Distances, first_front, further};
use crate::search_alone::next_front_alone;
use crate::vertices::{Vertices, has_edge};
use aug_monoid::{First, NoMemory};
use std::alloc::Global;

// The vertices at one distance, each with that distance.
type Front = Vec<(u64, u64)>;

// Whether a front has a vertex.
fn has_vertex(front: &[(u64, u64)], vertex: u64) -> bool
    ensures { result ≡ is_some (lookup nat_cmp front.now vertex) }
{
    for entry in front {
        if entry.0 == vertex {
            return true;
        }
    }
    false
}

// A vertex of a front with an edge to a vertex.
fn one_before(vertices: &Vertices, front: &[(u64, u64)], to: u64) -> u64
    requires { IsTrue (list_any (λ e. leads vertices.now.entries e.0 to) front.now) }
    ensures there { IsTrue (is_some (lookup nat_cmp front.now result)) }
    ensures edge { IsTrue (leads vertices.now.entries result to) }
{
    for entry in front {
        if has_edge(vertices, entry.0, to) {
            return entry.0;
        }
    }
    unreachable!()
}

// The way back from `to`, one vertex of each front, turned round.
fn back_through(
    alloc: Global,
    vertices: &Vertices,
    mut fronts: Vec<Front>,
    from: u64,
    to: u64,
) -> Result<Vec<u64>, NoMemory>
    requires sets { AreSets vertices.now.entries }
    requires fronts { AreFrontsTo (edges_of vertices.now.entries) from to (map (λ f. f.items) fronts.items) }
    ensures { IfOk result (λ path. IsLeastPath (edges_of vertices.now.entries) from to path.items) }
{
    let mut path = Vec::new(alloc);
    path.push(to)?;
    let mut present = to;
    'back: while present != from {
        let Some(front) = fronts.pop() else {
            unreachable!()
        };
        present = one_before(vertices, &front, present);
        path.push(present)?;
    }
    path.reverse();
    Ok(path)
}

// The fronts of the distances below that of `to`, if a walk leads there.
fn fronts_before(
    alloc: Global,
    vertices: &Vertices,
    from: u64,
    to: u64,
) -> Result<Option<Vec<Front>>, NoMemory>
    requires { AreSets vertices.now.entries }
    ensures { IfOk result (λ found. MatchOption found (IsOutOfReach (edges_of vertices.now.entries) from to) (λ fronts. AreFrontsTo (edges_of vertices.now.entries) from to (map (λ f. f.items) fronts.items))) }
{
    let mut front = first_front(alloc, from)?;
    let mut found = Distances::single(alloc, from, 0)?;
    let mut fronts = Vec::new(alloc);
    let mut distance: u64 = 0;
    'levels: while front.len() > 0 {
        if has_vertex(&front, to) {
            return Ok(Some(fronts));
        }
        distance = further(distance)?;
        let next = next_front_alone(alloc, vertices, &front, &found, distance)?;
        found = found.union_into_alone(alloc, &next, &First)?;
        fronts.push(front)?;
        front = next;
    }
    Ok(None)
}

/// The vertices of a walk of least length, both ends included, if a walk leads there.
pub(crate) fn least_path(
    alloc: Global,
    vertices: &Vertices,
    from: u64,
    to: u64,
) -> Result<Option<Vec<u64>>, NoMemory>
    requires { AreSets vertices.now.entries }
    ensures { IfOk result (λ found. MatchOption found (IsOutOfReach (edges_of vertices.now.entries) from to) (λ path. IsLeastPath (edges_of vertices.now.entries) from to path.items)) }
{
    match fronts_before(alloc, vertices, from, to)? {
        Some(fronts) => {
            let path = back_through(alloc, vertices, fronts, from, to)?;
            Ok(Some(path))
        }
        None => Ok(None),
    }
}
