//! What a list of operations comes to: edges to cut, and edges to add.
ghost use Rattle.std.specs.Prelude.{◌≡◌, ◌++◌, [], ◌∷◌, IfOk, OnOk, map};
ghost use Rattle.std.specs.List.{flat_map};
ghost use Rattle.aug_monoid.specs.Exact.{pair64_cmp};
ghost use Rattle.map_model.specs.Operations.{build};
ghost use Rattle.graph_snap.specs.Edges.{pairs_of, with_edges, without_edges};
ghost use Rattle.served_graph.specs.Nets.{added_parts, cut_parts, fate_of};
ghost use Rattle.served_graph.specs.Steps.{step};
ghost use Rattle.versions.specs.History.{after};

use crate::fate::Fate;
use crate::op::GraphOp;
use aug_map::PlainMap;
use aug_monoid::{NoMemory, Nothing, Pair64};
use fork_join::{Cut, Gate, On};
use graph_snap::{Edge, Graph};
use std::alloc::Global;
use std::marker::Sync;
use std::thread::Threads;
use versions::Batch;

/// Edges, each with what the last operation on it makes of it.
type Fates = PlainMap<Nothing<Pair64, Fate>>;

/// The edges that are cut, and those that are added. No edge is in both.
#[derive(Drop)]
struct Net {
    cut: Vec<Edge>,
    added: Vec<Edge>,
}

impl Net {
    /// Appends an edge to the list of its kind.
    fn push(&mut self, key: Pair64, fate: Fate) -> Result<(), NoMemory>
        ensures cut { OnOk result (self.new.cut.items ≡ self.old.cut.items ++ cut_parts ((key, fate) ∷ [])) }
        ensures added { OnOk result (self.new.added.items ≡ self.old.added.items ++ added_parts ((key, fate) ∷ [])) }
    {
        let edge = Edge {
            from: key.first,
            to: key.second,
        };
        match fate {
            Fate::Cut => self.cut.push(edge)?,
            Fate::Added => self.added.push(edge)?,
        }
        Ok(())
    }

    /// Edges with their fates, each in the list of its kind.
    fn of(alloc: Global, entries: &[(Pair64, Fate)]) -> Result<Net, NoMemory>
        ensures cut { IfOk result (λ net. net.cut.items ≡ cut_parts entries.now) }
        ensures added { IfOk result (λ net. net.added.items ≡ added_parts entries.now) }
    {
        let mut net = Net {
            cut: Vec::new(alloc),
            added: Vec::new(alloc),
        };
        for (key, fate) in entries {
            net.push(*key, *fate)?;
        }
        Ok(net)
    }
}

/// Appends the edges of operations, each with its fate.
fn push_fates(fates: &mut Vec<(Pair64, Fate)>, ops: &[GraphOp]) -> Result<(), NoMemory>
    ensures { OnOk result (fates.new.items ≡ fates.old.items ++ map fate_of ops.now) }
{
    for op in ops {
        fates.push(op.fate())?;
    }
    Ok(())
}

/// The edges of the batches' operations in order, each with its fate.
fn fates_of(alloc: Global, batches: &[Batch<GraphOp>]) -> Result<Vec<(Pair64, Fate)>, NoMemory>
    ensures { IfOk result (λ fates. fates.items ≡ map fate_of (flat_map (λ batch. batch) batches.now)) }
{
    let mut fates = Vec::new(alloc);
    for batch in batches {
        push_fates(&mut fates, batch.ops())?;
    }
    Ok(fates)
}

/// What fates come to, of which the last one of each edge counts.
fn net_of<R: Threads + Sync, G: Gate>(
    on: On<R, G>,
    alloc: Global,
    fates: &[(Pair64, Fate)],
) -> Result<Net, NoMemory>
    ensures cut { IfOk result (λ net. net.cut.items ≡ cut_parts (build pair64_cmp fates.now)) }
    ensures added { IfOk result (λ net. net.added.items ≡ added_parts (build pair64_cmp fates.now)) }
{
    let last = Fates::build(on.rt, alloc, on.gate, on.cut, fates)?;
    let entries = last.to_vec(alloc)?;
    Net::of(alloc, &entries)
}

/// The graph without the edges that are cut, and with those that are added.
fn changed<R: Threads + Sync, G: Gate>(
    on: On<R, G>,
    alloc: Global,
    graph: &Graph,
    net: &Net,
) -> Result<Graph, NoMemory>
    ensures { IfOk result (λ new. new ≡ with_edges (without_edges graph.now (pairs_of net.now.cut.items)) (pairs_of net.now.added.items)) }
{
    let less = graph.cut_edges(on.rt, alloc, on.gate, on.cut, &net.cut)?;
    less.add_edges(on.rt, alloc, on.gate, on.cut, &net.added)
}

/// The graph after the operations of the batches in order.
pub(crate) fn applied<R: Threads + Sync, G: Gate>(
    on: On<R, G>,
    alloc: Global,
    graph: &Graph,
    batches: &[Batch<GraphOp>],
) -> Result<Graph, NoMemory>
    ensures { IfOk result (λ new. new ≡ after step graph.now batches.now) }
{
    let _ordered = graph.edges(); // for the proof alone: edges rise
    let fates = fates_of(alloc, batches)?;
    let net = net_of(on, alloc, &fates)?;
    changed(on, alloc, graph, &net)
}
