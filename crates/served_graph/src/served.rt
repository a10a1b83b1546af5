//! The served graph.
ghost use Rattle.std.specs.Prelude.{◌≡◌, [], IfOk};
ghost use Rattle.served_graph.specs.Steps.{step};
ghost use Rattle.versions.specs.History.{after};

use crate::net::applied;
use crate::op::GraphOp;
use aug_monoid::{NoMemory, Share};
use fork_join::{FreeGate, Gate, On};
use graph_snap::Graph;
use std::alloc::Global;
use std::marker::{Model, Sync};
use std::thread::Threads;
use versions::{Batch, State};

/// A persistent directed graph, seen as the list of its edges by their first vertex and then by their second.
pub struct ServedGraph {
    graph: Graph,
}

impl Model for ServedGraph {
    ghost use Rattle.std.specs.Prelude.{ℕ, List};

    ghost Value = { List (ℕ × ℕ) };

    ghost view = { λ s. s.graph };
}

impl Drop for ServedGraph {
    fn drop(self) {
        let ServedGraph { graph } = self;
        drop(graph);
    }
}

impl ServedGraph {
    /// The graph without edges. It takes no memory.
    pub fn new() -> ServedGraph
        ensures { result ≡ [] }
    {
        ServedGraph {
            graph: Graph::new(),
        }
    }

    /// Lends the graph.
    pub fn graph(&self) -> &Graph
        ensures { result.now ≡ self.now }
    {
        &self.graph
    }
}

impl Share for ServedGraph {
    ghost never_refuses = { ⊥ };

    /// It takes no time but that of counting one more owner.
    fn share(&self, alloc: Global) -> Result<ServedGraph, NoMemory> {
        let graph = self.graph.share(alloc)?;
        Ok(ServedGraph { graph })
    }
}

impl State for ServedGraph {
    type Op = GraphOp;

    ghost step = { step };

    /// The operations are put in order by their edges, of those on one edge the last one counts, and then all edges are cut and
    /// added at once by `cut_edges` and `add_edges`, forked within the cut: for n operations and a graph of m vertices
    /// O(n * log(n + m)).
    fn change<R: Threads + Sync>(
        &self,
        on: On<R, FreeGate>,
        alloc: Global,
        batches: &[Batch<GraphOp>],
    ) -> Result<ServedGraph, NoMemory> {
        change_by(on, alloc, self, batches)
    }
}

/// What `change` answers. Its forks enter the gate.
pub fn change_by<R: Threads + Sync, G: Gate>(
    on: On<R, G>,
    alloc: Global,
    served: &ServedGraph,
    batches: &[Batch<GraphOp>],
) -> Result<ServedGraph, NoMemory>
    ensures { IfOk result (λ state. state ≡ after step served.now batches.now) }
{
    let graph = applied(on, alloc, &served.graph, batches)?;
    Ok(ServedGraph { graph })
}
