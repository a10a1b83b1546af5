//! Runs the commands of an input.
ghost use Rattle.std.specs.Prelude.{IfOk};
ghost use Rattle.tool_input.specs.Lawful.{IsLawful};
ghost use Rattle.pam_top.specs.Output.{IsOutput, IsPlain};

use aug_monoid::NoMemory;
use check_tool::run_check;
use fork_join::{Cut, Gate, On};
use graph_tool::run_graph;
use index_tool::run_index;
use interval_tool::run_intervals;
use map_tool::run_map;
use points_tool::run_points;
use seq_tool::run_seq;
use serve_tool::{gserve_text, serve_text};
use std::alloc::Global;
use std::marker::Sync;
use std::sync::Wait;
use std::thread::Threads;
use tool_input::Parsed;

/// The replies to the commands of a tool that does not wait, which depend neither on the runtime nor on the gate nor on the cut.
pub fn run_plain<R: Threads + Sync, G: Gate>(
    rt: &R,
    alloc: Global,
    gate: &G,
    cut: Cut,
    commands: &Parsed,
) -> Result<Vec<u8>, NoMemory>
    requires lawful { IsLawful commands.now }
    requires plain { IsPlain commands.now }
    ensures { IfOk result (λ text. IsOutput commands.now text.items) }
{
    let on = On { rt, gate, cut };
    match commands {
        Parsed::Map(list) => run_map(on, alloc, list.items()),
        Parsed::Seq(list) => run_seq(on, alloc, list.items()),
        Parsed::Interval(list) => run_intervals(alloc, list.items()),
        Parsed::Points(list) => run_points(on, alloc, list.items()),
        Parsed::Index(list) => run_index(on, alloc, list.items()),
        Parsed::Graph(list) => run_graph(on, alloc, list.items()),
        Parsed::Check { list, text } => run_check(on, alloc, list.items(), text.items()),
        Parsed::Serve(_) | Parsed::Gserve(_) => unreachable!(),
    }
}

/// The replies to the commands of any tool. It may wait in the tools serve and gserve alone.
pub(crate) fn run<R: Threads + Wait + Sync, G: Gate>(
    on: On<R, G>,
    alloc: Global,
    commands: &Parsed,
) -> Result<Vec<u8>, NoMemory>
    requires { IsLawful commands.now }
    ensures { IfOk result (λ text. IsOutput commands.now text.items) }
{
    match commands {
        Parsed::Serve(list) => serve_text(on, alloc, list.items()),
        Parsed::Gserve(list) => gserve_text(on, alloc, list.items()),
        _ => run_plain(on.rt, alloc, on.gate, on.cut, commands),
    }
}
