//! The vertices at which edges begin or end.
ghost use Rattle.std.specs.Prelude.{◌≡◌, ◌∷◌, ◌<◌, [], IfOk, length, slice_index};
ghost use Rattle.std.specs.List.{Contains};
ghost use Rattle.std.specs.List.Sorted.{IsNonDecreasing};
ghost use Rattle.std.specs.Map.{keys_of};
ghost use Rattle.graph_snap.specs.Edges.{pairs_of};
ghost use Rattle.graph_comp.specs.Components.{ends};

use aug_monoid::NoMemory;
use fork_join::{Gate, On};
use gathering::{Gives, set_of};
use graph_snap::Edge;
use std::alloc::Global;
use std::marker::Sync;
use std::thread::Threads;

// The two ends of an edge.
#[derive(Drop)]
struct Ends;

impl Gives<Edge, u64> for Ends {
    ghost given = { λ _ e. (e.from, tt) ∷ (e.to, tt) ∷ [] };

    fn push_given(
        &self,
        _alloc: Global,
        item: &Edge,
        into: &mut Vec<(u64, ())>,
    ) -> Result<(), NoMemory> {
        into.push((item.from, ()))?;
        into.push((item.to, ()))?;
        Ok(())
    }
}

// Keys without their values.
fn without_values(alloc: Global, keys: &[(u64, ())]) -> Result<Vec<u64>, NoMemory>
    ensures { IfOk result (λ list. list.items ≡ keys_of keys.now) }
{
    let list = keys.iter().map(|key| key.0).collect(alloc)?;
    Ok(list)
}

/// The ends of all edges, in order, gathered in parts that fork where the cut allows it.
pub(crate) fn vertices_of<R: Threads + Sync, G: Gate>(
    on: On<R, G>,
    alloc: Global,
    edges: &[Edge],
) -> Result<Vec<u64>, NoMemory>
    ensures { IfOk result (λ vertices. vertices.items ≡ ends (pairs_of edges.now)) }
{
    let keys = set_of(on, alloc, &Ends, edges)?;
    let vertices = without_values(alloc, &keys)?;
    Ok(vertices)
}

/// The place of a vertex that is in a list in order, by a search in halves.
pub(crate) fn place_of(vertices: &[u64], vertex: u64) -> usize
    requires order { IsNonDecreasing vertices.now }
    requires found { Contains vertices.now vertex }
    ensures within { result < length vertices.now }
    ensures at { slice_index vertices.now result ≡ vertex }
{
    vertices.partition_point(|known| *known < vertex)
}
