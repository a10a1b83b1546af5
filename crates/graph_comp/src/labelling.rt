//! The label of each vertex: the one at the root of its tree.
ghost use Rattle.std.specs.Prelude.{◌≡◌, ◌<◌, All, IfOk, length, map, slice_index};
ghost use Rattle.graph_snap.specs.Edges.{pairs_of};
ghost use Rattle.graph_comp.specs.Components.{AreComponents, components};
ghost use Rattle.graph_comp.specs.Forests.{HasEnds, IsFlat, Spans};

use crate::forest::flatten;
use crate::labelled::Labelled;
use crate::spanning::spanned;
use crate::vertices::vertices_of;
use aug_monoid::NoMemory;
use fork_join::{Cut, Gate, On};
use graph_snap::{Edge, Graph};
use std::alloc::Global;
use std::marker::Sync;
use std::thread::Threads;

// Vertices, each with the one at its parent's place as its label.
fn labelled(alloc: Global, vertices: &[u64], parents: &[usize]) -> Result<Vec<Labelled>, NoMemory>
    requires len { length parents.now ≡ length vertices.now }
    requires within { All (λ p. p < length vertices.now) parents.now }
    ensures vertices { IfOk result (λ list. map (λ l. l.vertex) list.items ≡ vertices.now) }
    ensures labels { IfOk result (λ list. map (λ l. l.label) list.items ≡ map (λ p. slice_index vertices.now p) parents.now) }
{
    let mut list = Vec::with_capacity(alloc, vertices.len())?;
    for (place, parent) in parents.iter().enumerate() {
        list.push(Labelled {
            vertex: vertices[place],
            label: vertices[*parent],
        })?;
    }
    Ok(list)
}

// The forest of edges whose ends are vertices in order; each parent is a root.
fn flat_forest<R: Threads + Sync, G: Gate>(
    on: On<R, G>,
    alloc: Global,
    vertices: &[u64],
    edges: &[Edge],
) -> Result<Vec<usize>, NoMemory>
    requires { HasEnds vertices.now edges.now }
    ensures spans { IfOk result (λ parents. Spans vertices.now edges.now parents.items) }
    ensures flat { IfOk result (λ parents. IsFlat parents.items) }
{
    let mut parents = spanned(on, alloc, vertices, edges)?;
    flatten(parents.as_mut_slice());
    Ok(parents)
}

// The components that edges make.
fn components_of<R: Threads + Sync, G: Gate>(
    on: On<R, G>,
    alloc: Global,
    edges: &[Edge],
) -> Result<Vec<Labelled>, NoMemory>
    ensures { IfOk result (λ found. AreComponents (pairs_of edges.now) found.items) }
{
    let vertices = vertices_of(on, alloc, edges)?;
    let known = vertices.as_slice();
    let parents = flat_forest(on, alloc, known, edges)?;
    let list = labelled(alloc, known, parents.as_slice())?;
    Ok(list)
}

/// The ends of the graph's edges in order, each with the least vertex of its component: the least that a list of vertices leads to,
/// between each two of which that follow each other there is an edge in one of the two directions.
///
/// For n vertices and m edges it takes O(m * log n) time, and forks where the cut allows it: each part of the edges is made a forest
/// by a union-find of its own, and forests are united pairwise. The answer depends on neither the runtime nor the gate nor the cut.
/// `NoMemory` for want of memory alone.
pub fn components<R: Threads + Sync, G: Gate>(
    rt: &R,
    alloc: Global,
    gate: &G,
    cut: Cut,
    graph: &Graph,
) -> Result<Vec<Labelled>, NoMemory>
    ensures value { IfOk result (λ found. found.items ≡ components graph.now) }
    ensures least { IfOk result (λ found. AreComponents graph.now found.items) }
{
    let edges = graph.list(alloc)?;
    let list = components_of(On { rt, gate, cut }, alloc, &edges)?;
    Ok(list)
}
