//! Graphs as lists of edges.
ghost use Rattle.std.specs.Prelude.{◌≡◌, ◌++◌, IfOk, OnOk};
ghost use Rattle.graph_snap.specs.Listing.{edge_list, edges_from};

use crate::edge::Edge;
use crate::neighbours::Neighbours;
use crate::vertices::Vertices;
use aug_monoid::NoMemory;
use std::alloc::Global;

// Appends the edges from a vertex to the elements of a set.
fn push_edges(
    alloc: Global,
    list: &mut Vec<Edge>,
    from: u64,
    set: &Neighbours,
) -> Result<(), NoMemory>
    ensures { OnOk result (list.new.items ≡ list.old.items ++ edges_from from set.now) }
{
    let ends = set.map().to_vec(alloc)?;
    for end in &ends {
        list.push(Edge { from, to: end.0 })?;
    }
    Ok(())
}

/// The edges of a map of sets, in order, in time linear in their number.
pub(crate) fn edge_list(alloc: Global, vertices: &Vertices) -> Result<Vec<Edge>, NoMemory>
    ensures { IfOk result (λ list. list.items ≡ edge_list vertices.now.entries) }
{
    let sets = vertices.to_vec(alloc)?;
    let mut list = Vec::new(alloc);
    for entry in &sets {
        push_edges(alloc, &mut list, entry.0, &entry.1)?;
    }
    Ok(list)
}
