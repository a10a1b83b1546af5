//! Batches of edges, as sets of out-neighbours by vertex.
ghost use Rattle.std.specs.Prelude.{◌≡◌, ◌∷◌, [], map, IfOk};
ghost use Rattle.graph_snap.specs.Batches.{as_key, as_pairs, run};
ghost use Rattle.graph_snap.specs.Edges.{AreSets, IsGraph, edges_of, pairs_of, reversed, with_edges};

use crate::edge::Edge;
use crate::neighbours::{Neighbours, ends_of};
use crate::packing::small_in_order;
use aug_monoid::{NoMemory, Pair64};
use fork_join::{Gate, On};
use gathering::{Gives, set_of, set_of_alone};
use std::alloc::Global;
use std::marker::Sync;
use std::thread::Threads;

// Edges as keys without values, each turned round or as it is.
#[derive(Drop)]
struct Keys {
    turned: bool,
}

impl Gives<Edge, Pair64> for Keys {
    ghost given = { λ k e. as_key k.turned e ∷ [] };

    fn push_given(
        &self,
        _alloc: Global,
        item: &Edge,
        into: &mut Vec<(Pair64, ())>,
    ) -> Result<(), NoMemory> {
        let (first, second) = if self.turned {
            (item.to, item.from)
        } else {
            (item.from, item.to)
        };
        into.push((Pair64 { first, second }, ()))?;
        Ok(())
    }
}

// Keys as edges.
fn as_pairs(alloc: Global, keys: &[(Pair64, ())]) -> Result<Vec<(u64, u64)>, NoMemory>
    ensures { IfOk result (λ pairs. pairs.items ≡ as_pairs keys.now) }
{
    let pairs = keys
        .iter()
        .map(|entry| (entry.0.first, entry.0.second))
        .collect(alloc)?;
    Ok(pairs)
}

// Edges in order, each once.
fn in_order<R: Threads + Sync, G: Gate>(
    on: On<R, G>,
    alloc: Global,
    list: &[Edge],
) -> Result<Vec<(u64, u64)>, NoMemory>
    ensures { IfOk result (λ edges. edges.items ≡ with_edges [] (pairs_of list.now)) }
{
    let keys = set_of(on, alloc, &Keys { turned: false }, list)?;
    as_pairs(alloc, &keys)
}

/// Edges in order, each once, on one thread. For n edges it takes about n * log n work.
pub(crate) fn in_order_alone(alloc: Global, list: &[Edge]) -> Result<Vec<(u64, u64)>, NoMemory>
    ensures { IfOk result (λ edges. edges.items ≡ with_edges [] (pairs_of list.now)) }
{
    if let Some(edges) = small_in_order(alloc, list)? {
        return Ok(edges);
    }
    let keys = set_of_alone(alloc, &Keys { turned: false }, list)?;
    as_pairs(alloc, &keys)
}

// Edges turned round, in order, each once, on one thread.
fn turned_in_order(alloc: Global, list: &[Edge]) -> Result<Vec<(u64, u64)>, NoMemory>
    ensures { IfOk result (λ edges. edges.items ≡ reversed (pairs_of list.now)) }
{
    let keys = set_of_alone(alloc, &Keys { turned: true }, list)?;
    as_pairs(alloc, &keys)
}

/// How many edges at the start are from a vertex.
pub(crate) fn run_length(edges: &[(u64, u64)], from: u64) -> usize
    ensures { result ≡ run from edges.now }
{
    for at in 0..edges.len() {
        if edges[at].0 != from {
            return at;
        }
    }
    edges.len()
}

// The sets of out-neighbours that edges in order make. Their ends are listed once for all sets.
fn grouped(alloc: Global, edges: &[(u64, u64)]) -> Result<Vec<(u64, Neighbours)>, NoMemory>
    requires { IsGraph edges.now }
    ensures sets { IfOk result (λ sets. AreSets sets.items) }
    ensures edges { IfOk result (λ sets. edges_of sets.items ≡ edges.now) }
{
    let ends = ends_of(alloc, edges)?;
    let mut sets = Vec::new(alloc);
    let mut rest = edges;
    let mut rest_ends = ends.as_slice();
    while let Some(edge) = rest.first() {
        let count = run_length(rest, edge.0);
        let (_, later) = rest.split_at(count);
        let (run_ends, later_ends) = rest_ends.split_at(count);
        let set = Neighbours::of_ends(alloc, run_ends)?;
        sets.push((edge.0, set))?;
        rest = later;
        rest_ends = later_ends;
    }
    Ok(sets)
}

/// The sets of out-neighbours that edges make, by vertex. For n edges it takes about n * log n work.
pub(crate) fn sets_of<R: Threads + Sync, G: Gate>(
    on: On<R, G>,
    alloc: Global,
    list: &[Edge],
) -> Result<Vec<(u64, Neighbours)>, NoMemory>
    ensures sets { IfOk result (λ sets. AreSets sets.items) }
    ensures edges { IfOk result (λ sets. edges_of sets.items ≡ with_edges [] (pairs_of list.now)) }
{
    let edges = in_order(on, alloc, list)?;
    grouped(alloc, &edges)
}

/// `sets_of` on one thread.
pub(crate) fn sets_of_alone(
    alloc: Global,
    list: &[Edge],
) -> Result<Vec<(u64, Neighbours)>, NoMemory>
    ensures sets { IfOk result (λ sets. AreSets sets.items) }
    ensures edges { IfOk result (λ sets. edges_of sets.items ≡ with_edges [] (pairs_of list.now)) }
{
    let edges = in_order_alone(alloc, list)?;
    grouped(alloc, &edges)
}

/// The sets of out-neighbours that edges make when each is turned round, by vertex, on one thread. For n edges it takes about
/// n * log n work.
pub(crate) fn turned_sets(alloc: Global, list: &[Edge]) -> Result<Vec<(u64, Neighbours)>, NoMemory>
    ensures sets { IfOk result (λ sets. AreSets sets.items) }
    ensures edges { IfOk result (λ sets. edges_of sets.items ≡ reversed (pairs_of list.now)) }
{
    let edges = turned_in_order(alloc, list)?;
    grouped(alloc, &edges)
}
