//! Topological orders.
ghost use Rattle.std.specs.Prelude.{IfOk};
ghost use Rattle.graph_order.specs.Sorted.{IsSorted};

use crate::search::{Search, cycle_from, go_from};
use aug_monoid::NoMemory;
use graph_snap::Graph;
use ord_map::OrdMap;
use std::alloc::Global;

/// What a sort of vertices comes to.
#[derive(Drop)]
pub enum Sorted {
    /// All vertices that are ends of edges, each once, and before those that its edges lead to.
    Order(Vec<u64>),
    /// Vertices, none of them twice, of which each has an edge to the next one, and the last to the first.
    Cycle(Vec<u64>),
}

/// An order of the vertices in which each edge goes forwards, or a cycle, for which there is none. It is a search by depth that keeps
/// its walk in a list (Tarjan, Edge-disjoint spanning trees and depth-first search, Acta Informatica 6, 1976). O((n + m) * log n) for
/// n vertices and m edges. `NoMemory` for want of memory alone; the graph is as it was in any case.
pub fn topological_order(alloc: Global, graph: &Graph) -> Result<Sorted, NoMemory>
    ensures { IfOk result (IsSorted graph.now) }
{
    let mut search = Search {
        marks: OrdMap::new(),
        walk: Vec::new(alloc),
        done: Vec::new(alloc),
    };
    let edges = graph.list(alloc)?;
    for edge in &edges {
        if let Some(end) = go_from(alloc, graph, &mut search, edge.from)? {
            let cycle = cycle_from(alloc, search.walk, end)?;
            return Ok(Sorted::Cycle(cycle));
        }
    }
    let mut order = search.done;
    order.reverse();
    Ok(Sorted::Order(order))
}
