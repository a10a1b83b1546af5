//! Edges added to a map that is given up, on one thread.
ghost use Rattle.std.specs.Prelude.{◌≡◌, IfOk};
ghost use Rattle.std.specs.Ordering.{nat_cmp};
ghost use Rattle.map_model.specs.Entries.{IsIncreasing};
ghost use Rattle.graph_snap.specs.Batches.{ends};
ghost use Rattle.graph_snap.specs.Edges.{AreSets, IsGraph, edges_of, with_edges};
ghost use Rattle.graph_snap.specs.Merging.{AreRenewed, renewed_set};

use crate::batch::run_length;
use crate::neighbours::Neighbours;
use crate::vertices::{Vertices, set_ref};
use aug_monoid::{NoMemory, Second};
use std::alloc::Global;

// The set that a vertex has with the ends of edges in order from it.
fn renewed_set(
    alloc: Global,
    vertices: &Vertices,
    vertex: u64,
    run: &[(u64, u64)],
) -> Result<Neighbours, NoMemory>
    requires { IsIncreasing nat_cmp (ends run.now) }
    ensures { IfOk result (λ set. set ≡ renewed_set vertices.now.entries vertex (ends run.now)) }
{
    match set_ref(vertices, vertex) {
        Some(set) => set.with_run(alloc, run),
        None => Neighbours::of_run(alloc, run),
    }
}

// The sets that vertices have with edges in order too, of each vertex that one of the edges is from.
fn renewed(
    alloc: Global,
    vertices: &Vertices,
    edges: &[(u64, u64)],
) -> Result<Vec<(u64, Neighbours)>, NoMemory>
    requires { IsGraph edges.now }
    ensures { IfOk result (λ sets. AreRenewed vertices.now.entries edges.now sets.items) }
{
    let mut sets = Vec::new(alloc);
    let mut rest = edges;
    while let Some(edge) = rest.first() {
        let (run, later) = rest.split_at(run_length(rest, edge.0));
        let set = renewed_set(alloc, vertices, edge.0, run)?;
        sets.push((edge.0, set))?;
        rest = later;
    }
    Ok(sets)
}

/// The map, which is given up, with edges in order too. Each vertex is looked up, and its set made anew from the one that it has,
/// so that an edge alone takes no set of its own. O(k * log(n * k)) for k edges and n vertices.
pub(crate) fn with_edges_into_alone(
    alloc: Global,
    vertices: Vertices,
    edges: &[(u64, u64)],
) -> Result<Vertices, NoMemory>
    requires vertices { AreSets vertices.entries }
    requires edges { IsGraph edges.now }
    ensures sets { IfOk result (λ map. AreSets map.entries) }
    ensures edges { IfOk result (λ map. edges_of map.entries ≡ with_edges (edges_of vertices.entries) edges.now) }
{
    let sets = renewed(alloc, &vertices, edges)?;
    vertices.union_into_alone(alloc, &sets, &Second)
}
