//! One command of the tool graph.
ghost use Rattle.std.specs.Prelude.{◌≡◌, ◌++◌, ◌∷◌, [], OnOk, codes, slice_get};
ghost use Rattle.graph_comp.specs.Components.{components};
ghost use Rattle.graph_snap.specs.Walks.{reach};
ghost use Rattle.graph_tool.specs.Effects.{components_line, graph_after, graph_reply, kept_search, reached_line, seen};
ghost use Rattle.script.specs.Lines.{line_of};

use crate::GraphCommand;
use crate::graphs::{Graphs, edges_in};
use crate::replies::{labelled, reached};
use aug_monoid::{NoMemory, Share};
use fork_join::{Cut, Gate, On};
use graph_comp::components;
use graph_snap::Graph;
use script::line;
use std::alloc::Global;
use std::marker::Sync;
use std::mem;
use std::thread::Threads;

// Appends the reply to a search of a graph.
fn search<R: Threads + Sync, G: Gate>(
    on: On<R, G>,
    alloc: Global,
    text: &mut Vec<u8>,
    graph: &Graph,
    from: u64,
) -> Result<(), NoMemory>
    ensures { OnOk result (text.new.items ≡ text.old.items ++ reached_line (reach graph.now from)) }
{
    let found = graph.bfs(on.rt, alloc, on.gate, on.cut, from)?;
    reached(alloc, text, &found)
}

// Appends the reply to a search of a kept graph.
fn search_kept<R: Threads + Sync, G: Gate>(
    on: On<R, G>,
    alloc: Global,
    text: &mut Vec<u8>,
    kept: &[Graph],
    number: u64,
    from: u64,
) -> Result<(), NoMemory>
    ensures { OnOk result (text.new.items ≡ text.old.items ++ kept_search kept.now number from) }
{
    match kept.get(number as usize) {
        Some(graph) => search(on, alloc, text, graph, from),
        None => line(text, "none", &[]),
    }
}

// Appends the reply that lists the components of a graph.
fn list_components<R: Threads + Sync, G: Gate>(
    on: On<R, G>,
    alloc: Global,
    text: &mut Vec<u8>,
    graph: &Graph,
) -> Result<(), NoMemory>
    ensures { OnOk result (text.new.items ≡ text.old.items ++ components_line (components graph.now)) }
{
    let found = components(on.rt, alloc, on.gate, on.cut, graph)?;
    labelled(alloc, text, &found)
}

/// Runs one command on graphs, and appends its reply.
pub(crate) fn graph_command<R: Threads + Sync, G: Gate>(
    on: On<R, G>,
    alloc: Global,
    graphs: &mut Graphs,
    text: &mut Vec<u8>,
    command: &GraphCommand,
) -> Result<(), NoMemory>
    ensures after { OnOk result (seen graphs.new ≡ graph_after (seen graphs.old) command.now) }
    ensures reply { OnOk result (text.new.items ≡ text.old.items ++ graph_reply (seen graphs.old) command.now) }
{
    match command {
        GraphCommand::Add { edges, .. } => {
            let list = edges_in(alloc, edges.items())?;
            let present = mem::replace(&mut graphs.present, Graph::new());
            graphs.present = present.add_edges_into(on.rt, alloc, on.gate, on.cut, &list)?;
            line(text, "ok", &[graphs.present.edges()])
        }
        GraphCommand::Cut { edges, .. } => {
            let list = edges_in(alloc, edges.items())?;
            graphs.present = graphs
                .present
                .cut_edges(on.rt, alloc, on.gate, on.cut, &list)?;
            line(text, "ok", &[graphs.present.edges()])
        }
        GraphCommand::Keep { .. } => {
            let number = graphs.kept.len() as u64;
            graphs.kept.push(graphs.present.share(alloc)?)?;
            line(text, "kept", &[number])
        }
        GraphCommand::Size { .. } => {
            line(
                text,
                "graph",
                &[graphs.present.vertices(), graphs.present.edges()],
            )
        }
        GraphCommand::Degree { u, .. } => {
            let degree = graphs.present.degree(alloc, *u)?;
            line(text, "degree", &[degree])
        }
        GraphCommand::Now { u, .. } => search(on, alloc, text, &graphs.present, *u),
        GraphCommand::Bfs { s, u, .. } => { search_kept(on, alloc, text, &graphs.kept, *s, *u) }
        GraphCommand::Comp { .. } => list_components(on, alloc, text, &graphs.present),
    }
}
