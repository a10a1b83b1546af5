//! Runs the commands of an input.
ghost use Rattle.std.specs.Prelude.{◌≡◌, IfOk};
ghost use Rattle.graph_tool.specs.Effects.{graph_after, graph_reply, no_graphs};
ghost use Rattle.script.specs.Replies.{replies};

use crate::GraphCommand;
use crate::command::graph_command;
use crate::graphs::no_graphs;
use aug_monoid::NoMemory;
use fork_join::{Gate, On};
use std::alloc::Global;
use std::marker::Sync;
use std::thread::Threads;

/// The replies to commands in order, from an empty graph and no kept ones. They depend neither on the runtime nor on the gate nor
/// on the cut, and want of memory alone refuses.
pub fn run_graph<R: Threads + Sync, G: Gate>(
    on: On<R, G>,
    alloc: Global,
    commands: &[GraphCommand],
) -> Result<Vec<u8>, NoMemory>
    ensures { IfOk result (λ text. text.items ≡ replies graph_reply graph_after no_graphs commands.now) }
{
    let mut graphs = no_graphs(alloc);
    let mut text = Vec::new(alloc);
    for command in commands {
        graph_command(on, alloc, &mut graphs, &mut text, command)?;
    }
    Ok(text)
}
