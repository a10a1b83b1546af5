//! The present graph and the kept ones.
ghost use Rattle.std.specs.Prelude.{◌≡◌, IfOk};
ghost use Rattle.graph_tool.specs.Effects.{edges_in, no_graphs, seen};

use aug_monoid::{NoMemory, Pair64};
use graph_snap::{Edge, Graph};
use std::alloc::Global;

/// The present graph, and the kept ones in the order in which they were kept.
#[derive(Drop)]
pub(crate) struct Graphs {
    pub(crate) present: Graph,
    pub(crate) kept: Vec<Graph>,
}

/// An empty graph, and no kept ones.
pub(crate) fn no_graphs(alloc: Global) -> Graphs
    ensures { seen result ≡ no_graphs }
{
    Graphs {
        present: Graph::new(),
        kept: Vec::new(alloc),
    }
}

/// Pairs as edges, from the first vertex to the second.
pub(crate) fn edges_in(alloc: Global, pairs: &[Pair64]) -> Result<Vec<Edge>, NoMemory>
    ensures { IfOk result (λ edges. edges.items ≡ edges_in pairs.now) }
{
    let edges = pairs
        .iter()
        .map(|pair| Edge {
            from: pair.first,
            to: pair.second,
        })
        .collect(alloc)?;
    Ok(edges)
}
