//! Edges between small vertices, each as one number.
ghost use Rattle.std.specs.Prelude.{◌≡◌, [], IfOk, IfSome};
ghost use Rattle.graph_snap.specs.Batches.{unpacked};
ghost use Rattle.graph_snap.specs.Edges.{pairs_of, with_edges};

use crate::edge::Edge;
use aug_monoid::NoMemory;
use sorted_lists::put_in_order;
use std::alloc::Global;

/// Two vertices below this stand together in 64 bits. Numbers are sorted in half the time of pairs.
const SMALL: u64 = 0x1_0000_0000;

// Edges as numbers, or none where a vertex is not small.
fn packed(alloc: Global, list: &[Edge]) -> Result<Option<Vec<(u64, ())>>, NoMemory>
    ensures { IfOk result (λ found. IfSome found (λ keys. unpacked keys.items ≡ pairs_of list.now)) }
{
    let mut keys = Vec::with_capacity(alloc, list.len())?;
    for edge in list {
        if edge.from >= SMALL || edge.to >= SMALL {
            return Ok(None);
        }
        keys.push((edge.from * SMALL + edge.to, ()))?;
    }
    Ok(Some(keys))
}

// Numbers as edges.
fn unpacked(alloc: Global, keys: &[(u64, ())]) -> Result<Vec<(u64, u64)>, NoMemory>
    ensures { IfOk result (λ edges. edges.items ≡ unpacked keys.now) }
{
    let edges = keys
        .iter()
        .map(|entry| (entry.0 / SMALL, entry.0 % SMALL))
        .collect(alloc)?;
    Ok(edges)
}

/// Edges in order, each once, or none where a vertex is not small. For n edges it takes about n * log n work.
pub(crate) fn small_in_order(
    alloc: Global,
    list: &[Edge],
) -> Result<Option<Vec<(u64, u64)>>, NoMemory>
    ensures { IfOk result (λ found. IfSome found (λ edges. edges.items ≡ with_edges [] (pairs_of list.now))) }
{
    let Some(mut keys) = packed(alloc, list)? else {
        return Ok(None);
    };
    put_in_order(&mut keys);
    let edges = unpacked(alloc, &keys)?;
    Ok(Some(edges))
}
