//! The two parts of a round beside one another: the callers, and the combiner.
ghost use Rattle.std.specs.Prelude.{◌≡◌, [], ◌∷◌, IfOk, length, map};
ghost use Rattle.std.specs.Thread.{IsSend, IsSync};
ghost use Rattle.version_root.specs.Public.{IsPrefix};
ghost use Rattle.batch_store.specs.Keeping.{SameStore};
ghost use Rattle.serve_rounds.specs.Rounds.{Follows, HaveRun};

use crate::ran::Ran;
use crate::running::{Round, run_callers};
use aug_monoid::NoMemory;
use batch_store::{Caller, State, Store};
use fork_join::{Gate, On};
use serve_callers::Lines;
use serve_text::{Act, Answers, Record};
use std::alloc::Global;
use std::collections::VecDeque;
use std::marker::Sync;
use std::sync::Wait;
use std::thread;
use std::thread::Threads;
use versions::SyncState;

/// Which of the callers have records.
fn busy_callers<O: Drop, Q: Drop>(
    alloc: Global,
    records: &[Record<O, Q>],
    callers: usize,
) -> Result<Vec<bool>, NoMemory> {
    let mut busy = Vec::from_elem(alloc, false, callers)?;
    for record in records {
        if let Some(flag) = busy.get_mut(record.caller as usize) {
            *flag = true;
        }
    }
    Ok(busy)
}

/// As many turns as there are batches, and one at least.
fn turns_for<O: Drop, Q: Drop>(records: &[Record<O, Q>]) -> u64 {
    let mut batches: u64 = 0;
    for record in records {
        if let Act::Submit { .. } = &record.act {
            batches = batches.saturating_add(1);
        }
    }
    batches.max(1)
}

/// The combiner, in a thread of its own, beside the callers: this thread begins with them, so that turns find what they submit.
fn side_by_side<A: Answers<S>, S: SyncState, R: Threads + Wait + Sync, G: Gate>(
    round: &Round<'_, A, S, R, G>,
    alloc: Global,
    store: Store<S>,
    callers: VecDeque<Caller<S>>,
) -> (
    Result<Vec<Ran<S>>, NoMemory>,
    Result<Vec<Store<S>>, NoMemory>,
)
    ensures ran { IfOk result.0 (λ ran. HaveRun S.step A.answer_of round.now.records.now callers.items ran.items) }
    ensures store { IfOk result.1 (λ stores. Follows store stores.items) }
{
    let (stores, ran) = thread::join(
        round.on.rt,
        move || -> Result<Vec<Store<S>>, NoMemory>
            requires { IsSend A.row × IsSync A.row }
            ensures { IfOk result (λ stores. Follows store stores.items) }
        { round.turns_of_thread(alloc, store) },
        move || -> Result<Vec<Ran<S>>, NoMemory>
            requires { IsSend A.row × IsSync A.row }
            ensures { IfOk result (λ ran. HaveRun S.step A.answer_of round.entry.now.records.now callers.items ran.items) }
        { run_callers(round, alloc, callers) },
    );
    (ran, stores)
}

/// The one store of a list.
fn only<S: State>(stores: Vec<Store<S>>) -> Store<S>
    requires { length stores.items ≡ 1 }
    ensures { stores.items ≡ result ∷ [] }
{
    let mut stores = stores;
    match stores.pop() {
        Some(store) => store,
        None => unreachable!(),
    }
}

/// The callers beside the combiner, as what both leave.
fn run_beside<A: Answers<S>, S: SyncState, R: Threads + Wait + Sync, G: Gate>(
    round: &Round<'_, A, S, R, G>,
    alloc: Global,
    store: Store<S>,
    callers: VecDeque<Caller<S>>,
) -> Result<(Store<S>, Vec<Ran<S>>), NoMemory>
    ensures store { IfOk result (λ parts. SameStore store parts.0 × IsPrefix store.journal parts.0.journal) }
    ensures ran { IfOk result (λ parts. HaveRun S.step A.answer_of round.now.records.now callers.items parts.1.items) }
{
    let (ran, stores) = side_by_side(round, alloc, store, callers);
    let ran = ran?;
    let stores = stores?;
    let later = only(stores);
    Ok((later, ran))
}

/// The callers, and then the combiner.
fn run_one_by_one<A: Answers<S>, S: SyncState, R: Threads + Wait + Sync, G: Gate>(
    round: &Round<'_, A, S, R, G>,
    alloc: Global,
    store: Store<S>,
    callers: VecDeque<Caller<S>>,
) -> Result<(Store<S>, Vec<Ran<S>>), NoMemory>
    ensures store { IfOk result (λ parts. SameStore store parts.0 × IsPrefix store.journal parts.0.journal) }
    ensures ran { IfOk result (λ parts. HaveRun S.step A.answer_of round.now.records.now callers.items parts.1.items) }
{
    let ran = run_callers(round, alloc, callers)?;
    let later = round.make_turns(alloc, store)?;
    Ok((later, ran))
}

/// The callers and the combiner of a round. A thread for a single record would cost more than the record.
pub(crate) fn run_parts<'a, A: Answers<S>, S: SyncState, R: Threads + Wait + Sync, G: Gate>(
    on: On<'a, R, G>,
    alloc: Global,
    store: Store<S>,
    callers: Vec<Caller<S>>,
    records: &'a [Record<S::Op, A::Query>],
) -> Result<(Store<S>, Vec<Ran<S>>), NoMemory>
    ensures store { IfOk result (λ parts. SameStore store parts.0 × IsPrefix store.journal parts.0.journal) }
    ensures ran { IfOk result (λ parts. HaveRun S.step A.answer_of records.now callers.items parts.1.items) }
{
    let busy = busy_callers(alloc, records, callers.len())?;
    let round: Round<'_, A, S, R, G> = Round {
        on,
        records,
        busy: busy.as_slice(),
        turns: turns_for(records),
    };
    let callers = VecDeque::from_vec(callers);
    if records.len() == 1 {
        run_one_by_one(&round, alloc, store, callers)
    } else {
        run_beside(&round, alloc, store, callers)
    }
}

/// The callers and their lines, each in order.
pub(crate) fn parted<S: State>(
    alloc: Global,
    ran: Vec<Ran<S>>,
) -> Result<(Vec<Caller<S>>, Vec<Lines>), NoMemory>
    ensures callers { IfOk result (λ parts. parts.0.items ≡ map (λ one. one.0) ran.items) }
    ensures lines { IfOk result (λ parts. parts.1.items ≡ map (λ one. one.1) ran.items) }
{
    let mut callers = Vec::with_capacity(alloc, ran.len())?;
    let mut lines = Vec::with_capacity(alloc, ran.len())?;
    for one in ran {
        let Ran {
            caller,
            lines: left,
        } = one;
        callers.push(caller)?;
        lines.push(left)?;
    }
    Ok((callers, lines))
}
