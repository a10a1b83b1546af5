//! The verdict on a text, and its reply.
ghost use Rattle.std.specs.Prelude.{◌≡◌, [], IfOk};
ghost use Rattle.serve_script.specs.Served.{IsServeInput};
ghost use Rattle.check_tool.specs.GraphVerdicts.{IsGraphVerdictOn};
ghost use Rattle.check_tool.specs.Output.{IsCheckOutput, IsVerdictOn, reply_of};

use aug_monoid::NoMemory;
use fork_join::{Cut, Gate, On};
use run_check::Verdict;
use script::line;
use serve_answers::{GraphAnswers, MapAnswers};
use serve_input::{callers, records};
use serve_script::{GserveCommand, ServeCommand};
use served_graph::ServedGraph;
use served_map::Served;
use std::alloc::Global;
use std::marker::Sync;
use std::thread::Threads;

/// Whether the text is that of a lawful run of the commands, and if not the least point that fails (`Verdict`): a text has one
/// verdict, which is yes exactly where the tool serve may write it. For an input of n bytes it takes some n log n steps: each
/// batch is applied once, and each read is answered once. The changes of the map fork within the cut. It is refused where memory
/// runs out.
pub fn check<R: Threads + Sync, G: Gate>(
    rt: &R,
    alloc: Global,
    gate: &G,
    cut: Cut,
    commands: &[ServeCommand],
    text: &[u8],
) -> Result<Verdict, NoMemory>
    requires { IsServeInput commands.now }
    ensures { IfOk result (IsVerdictOn commands.now text.now) }
{
    let records = records(alloc, commands)?;
    let callers = callers(commands);
    run_check::check::<MapAnswers, Served, R, G>(
        On { rt, gate, cut },
        alloc,
        Served::new(),
        &records,
        callers,
        text,
    )
}

/// The same of a text of the tool gserve. A search among the reads goes over what it finds. The program has no tool for it: it is for
/// those who keep texts of gserve, and for tests.
pub fn check_gserve<R: Threads + Sync, G: Gate>(
    on: On<R, G>,
    alloc: Global,
    commands: &[GserveCommand],
    text: &[u8],
) -> Result<Verdict, NoMemory>
    requires { IsServeInput commands.now }
    ensures { IfOk result (IsGraphVerdictOn commands.now text.now) }
{
    let records = records(alloc, commands)?;
    let callers = callers(commands);
    let graph = ServedGraph::new();
    run_check::check::<GraphAnswers, ServedGraph, R, G>(on, alloc, graph, &records, callers, text)
}

// The line of a verdict.
fn reply(alloc: Global, verdict: Verdict) -> Result<Vec<u8>, NoMemory>
    ensures { IfOk result (λ text. text.items ≡ reply_of verdict) }
{
    let mut text = Vec::new(alloc);
    match verdict {
        Verdict::Yes => line(&mut text, "yes", &[])?,
        Verdict::No { point } => line(&mut text, "no", &[point as u64])?,
    }
    Ok(text)
}

/// The reply to an input: the line of the verdict on its text.
pub fn run_check<R: Threads + Sync, G: Gate>(
    on: On<R, G>,
    alloc: Global,
    commands: &[ServeCommand],
    text: &[u8],
) -> Result<Vec<u8>, NoMemory>
    requires { IsServeInput commands.now }
    ensures { IfOk result (λ reply. IsCheckOutput commands.now text.now reply.items) }
{
    let verdict = check(on.rt, alloc, on.gate, on.cut, commands, text)?;
    reply(alloc, verdict)
}
