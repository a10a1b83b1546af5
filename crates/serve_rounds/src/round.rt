//! One round.
ghost use Rattle.std.specs.Prelude.{◌<◌, IfOk, All, length};
ghost use Rattle.serve_rounds.specs.Rounds.{IsBetweenRounds, PlaysRound};

use crate::parts::{parted, run_parts};
use crate::played::Played;
use aug_monoid::NoMemory;
use fork_join::{Gate, On};
use serve_callers::weave;
use serve_text::{Answers, Record};
use std::alloc::Global;
use std::marker::Sync;
use std::sync::Wait;
use std::thread::Threads;
use versions::SyncState;

/// One round: its callers run beside the combiner, then the round ends, and the lines of its reads are written in record order.
pub(crate) fn play_round<A: Answers<S>, S: SyncState, R: Threads + Wait + Sync, G: Gate>(
    on: On<R, G>,
    alloc: Global,
    played: Played<S>,
    records: &[Record<S::Op, A::Query>],
) -> Result<Played<S>, NoMemory>
    requires between { IsBetweenRounds played.store played.callers.items }
    requires callers { All (λ r. r.caller < length played.callers.items) records.now }
    ensures { IfOk result (λ later. PlaysRound S.step A.answer_of records.now played.store later.store played.callers.items later.callers.items played.text.items later.text.items) }
{
    let Played {
        store,
        callers,
        text,
    } = played;
    let (store, ran) = run_parts::<A, S, R, G>(on, alloc, store, callers, records)?;
    let (callers, lines) = parted(alloc, ran)?;
    let mut store = store;
    let mut callers = callers;
    store.end_round(on.rt, alloc, on.gate, on.cut, &mut callers)?;
    let mut lines = lines;
    let mut text = text;
    weave(records, &mut lines, &mut text)?;
    Ok(Played {
        store,
        callers,
        text,
    })
}
