//! Runs the commands of an input.
ghost use Rattle.std.specs.Prelude.{[], IfOk};
ghost use Rattle.batch_store.specs.Round.{IsNewStore};
ghost use Rattle.op_runs.specs.Steps as map_steps;
ghost use Rattle.serve_script.specs.Served.{IsServeInput};
ghost use Rattle.serve_answers.specs.GraphAnswering as graphs;
ghost use Rattle.serve_answers.specs.MapAnswering as maps;
ghost use Rattle.serve_input.specs.Converting.{callers_of, records_of};
ghost use Rattle.serve_rounds.specs.Rounds.{HasServed};
ghost use Rattle.serve_text.specs.Texts.{IsServeText};
ghost use Rattle.serve_tool.specs.GraphOutput.{IsGserveOutput};
ghost use Rattle.serve_tool.specs.Output.{IsServeOutput};
ghost use Rattle.served_graph.specs.Steps as graph_steps;

use aug_monoid::NoMemory;
use batch_store::{Caller, Store};
use fork_join::{Cut, Gate, On};
use serve_answers::{GraphAnswers, MapAnswers};
use serve_input::{callers, records};
use serve_rounds::{Played, finish, run_rounds};
use serve_script::{GserveCommand, ServeCommand, ServedCommand};
use serve_text::Answers;
use served_graph::ServedGraph;
use served_map::Served;
use std::alloc::Global;
use std::marker::Sync;
use std::sync::Wait;
use std::thread::Threads;
use versions::SyncState;

/// Runs the commands' batches and reads on a new store of a state, in their rounds: in each round the callers that have records run
/// beside one combiner, one of them in the thread that calls and the others in threads of their own; a round of one record starts no
/// thread, and where none can be made they run one after another. It leaves the store with all batches in its journal, the callers in
/// order, and the lines of the reads.
///
/// It enters the gate at 200 and 201 round what each turn of the combiner takes and publishes, and at 256 + c before each read of
/// caller c. It takes memory for the records, for each thread and for what is submitted, and is refused where that runs out: store
/// and callers are dropped then. It may wait for readers.
pub fn run_served<A: Answers<S>, S: SyncState, R: Threads + Wait + Sync, G: Gate>(
    on: On<R, G>,
    alloc: Global,
    store: Store<S>,
    callers: Vec<Caller<S>>,
    commands: &[ServedCommand<S::Op, A::Query>],
) -> Result<Played<S>, NoMemory>
    requires lawful { IsServeInput commands.now }
    requires new { IsNewStore store.base (callers_of commands.now) store callers.items }
    ensures { IfOk result (λ played. HasServed S.step A.answer_of (records_of commands.now) store played.store callers.items played.callers.items played.text.items) }
{
    let records = records(alloc, commands)?;
    run_rounds::<A, S, R, G>(on, alloc, store, callers, &records)
}

/// The text of the commands, run on a state by callers of their own. An input has many lawful texts, and it depends on the threads which
/// of them this is. It enters the gate and may wait as `run_served` does, and is refused only where memory runs out.
pub fn served_text<A: Answers<S>, S: SyncState, R: Threads + Wait + Sync, G: Gate>(
    on: On<R, G>,
    alloc: Global,
    base: S,
    commands: &[ServedCommand<S::Op, A::Query>],
) -> Result<Vec<u8>, NoMemory>
    requires { IsServeInput commands.now }
    ensures { IfOk result (λ text. IsServeText S.step A.answer_of A.last_of base (records_of commands.now) text.items) }
{
    let (store, callers) = Store::start(alloc, base, callers(commands))?;
    let played = run_served::<A, S, R, G>(on, alloc, store, callers, commands)?;
    finish::<A, S, R, G>(on, alloc, played)
}

/// Runs commands of the tool serve on a new store of a map, as `run_served` does.
pub fn run_serve<R: Threads + Wait + Sync, G: Gate>(
    rt: &R,
    alloc: Global,
    gate: &G,
    cut: Cut,
    store: Store<Served>,
    callers: Vec<Caller<Served>>,
    commands: &[ServeCommand],
) -> Result<Played<Served>, NoMemory>
    requires lawful { IsServeInput commands.now }
    requires new { IsNewStore [] (callers_of commands.now) store callers.items }
    ensures { IfOk result (λ played. HasServed map_steps.step maps.answer_of (records_of commands.now) store played.store callers.items played.callers.items played.text.items) }
{
    let on = On { rt, gate, cut };
    run_served::<MapAnswers, Served, R, G>(on, alloc, store, callers, commands)
}

/// Runs commands of the tool gserve on a new store of a graph, as `run_served` does.
pub fn run_gserve<R: Threads + Wait + Sync, G: Gate>(
    rt: &R,
    alloc: Global,
    gate: &G,
    cut: Cut,
    store: Store<ServedGraph>,
    callers: Vec<Caller<ServedGraph>>,
    commands: &[GserveCommand],
) -> Result<Played<ServedGraph>, NoMemory>
    requires lawful { IsServeInput commands.now }
    requires new { IsNewStore [] (callers_of commands.now) store callers.items }
    ensures { IfOk result (λ played. HasServed graph_steps.step graphs.answer_of (records_of commands.now) store played.store callers.items played.callers.items played.text.items) }
{
    let on = On { rt, gate, cut };
    run_served::<GraphAnswers, ServedGraph, R, G>(on, alloc, store, callers, commands)
}

/// The text of the commands of the tool serve, run on an empty map as `served_text` does.
pub fn serve_text<R: Threads + Wait + Sync, G: Gate>(
    on: On<R, G>,
    alloc: Global,
    commands: &[ServeCommand],
) -> Result<Vec<u8>, NoMemory>
    requires { IsServeInput commands.now }
    ensures { IfOk result (λ text. IsServeOutput commands.now text.items) }
{
    served_text::<MapAnswers, Served, R, G>(on, alloc, Served::new(), commands)
}

/// The text of the commands of the tool gserve, run on a graph without edges as `served_text` does.
pub fn gserve_text<R: Threads + Wait + Sync, G: Gate>(
    on: On<R, G>,
    alloc: Global,
    commands: &[GserveCommand],
) -> Result<Vec<u8>, NoMemory>
    requires { IsServeInput commands.now }
    ensures { IfOk result (λ text. IsGserveOutput commands.now text.items) }
{
    served_text::<GraphAnswers, ServedGraph, R, G>(on, alloc, ServedGraph::new(), commands)
}
