//! Rounds of many callers.
ghost use Rattle.std.specs.Prelude.{◌≤◌};
ghost use Rattle.serve_text.specs.Histories.{AreInRounds};

use crate::timed::{Timed, told};
use anyhow::Result;
use aug_monoid::NoMemory;
use batch_store::Store;
use fork_join::{FreeGate, On};
use op_runs::Op;
use serve_answers::MapAnswers;
use serve_rounds::{finish, run_rounds};
use serve_script::{ServeQuery, served_commands};
use serve_text::Record;
use served_map::Served;
use std::alloc::Global;
use std::marker::Sync;
use std::rt::Clock;
use std::sync::Wait;
use std::thread::Threads;
use std::time::Instant;

/// The text of the records of so many callers, served from an empty map on.
fn served<R: Threads + Wait + Sync>(
    on: On<R, FreeGate>,
    alloc: Global,
    callers: u32,
    records: &[Record<Op, ServeQuery>],
) -> Result<Vec<u8>, NoMemory>
    requires few { (1 ≤ callers) × (callers ≤ 64) }
    requires rounds { AreInRounds callers records.now }
{
    let (store, callers) = Store::start(alloc, Served::new(), callers)?;
    let played = run_rounds::<MapAnswers, Served, R, FreeGate>(on, alloc, store, callers, records)?;
    finish::<MapAnswers, Served, R, FreeGate>(on, alloc, played)
}

/// Runs the rounds of an input's records.
pub(crate) fn time<R: Threads + Wait + Sync + Clock>(
    on: On<R, FreeGate>,
    alloc: Global,
    bytes: &[u8],
) -> Result<Timed> {
    let commands = served_commands::<Op, ServeQuery>(alloc, bytes)?;
    let records: Vec<Record<Op, ServeQuery>> = serve_input::records(alloc, commands.items())?;
    let callers = serve_input::callers(commands.items());
    let start = Instant::now(on.rt)?;
    let text = served(on, alloc, callers, &records)?;
    let nanoseconds = start.elapsed(on.rt)?.as_nanos();
    told(alloc, &text, nanoseconds)
}
