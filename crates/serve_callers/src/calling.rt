//! One caller's records.
ghost use Rattle.std.specs.Prelude.{◌≡◌, ◌++◌, ◌∷◌, [], ℕ, List, length, OnOk, IfOk};
ghost use Rattle.version_root.specs.Public.{IsPrefix, history, state_of};
ghost use Rattle.batch_store.specs.Calling.{SameCaller};
ghost use Rattle.serve_text.specs.Records.{records_of};
ghost use Rattle.serve_text.specs.Texts.{reply_head, line_feed};
ghost use Rattle.serve_callers.specs.Running.{HasRun};

use crate::lines::Lines;
use aug_monoid::{NoMemory, Share};
use batch_store::{Batch, Caller, Refused, State};
use fork_join::Gate;
use serve_text::{Act, Answers, Record, reply_line};
use std::alloc::Global;
use std::sync::Wait;

/// The gate's place before a read of caller 0. Each caller has a place of its own.
const BEFORE_READS: u64 = 256;

/// Submits a batch with its record's number as its tag.
fn submit<S: State>(
    alloc: Global,
    caller: &mut Caller<S>,
    place: u64,
    batch: &Batch<S::Op>,
) -> Result<(), NoMemory>
    ensures same { SameCaller caller.old caller.new }
    ensures reader { caller.new.reader ≡ caller.old.reader }
    ensures sent { OnOk result (caller.new.sent ≡ caller.old.sent ++ (record { tag = place; batch = batch.now }) ∷ []) }
{
    let batch = batch.share(alloc)?;
    match caller.submit(place, batch) {
        Ok(()) => Ok(()),
        Err(Refused { value: _, cause }) => Err(cause),
    }
}

/// The line of a read, answered at once by the newest version.
fn read<A: Answers<S>, S: State, R: Wait, G: Gate>(
    rt: &R,
    alloc: Global,
    gate: &G,
    caller: &mut Caller<S>,
    place: u64,
    query: &A::Query,
) -> Result<Vec<u8>, NoMemory>
    ensures same { SameCaller caller.old caller.new }
    ensures sent { caller.new.sent ≡ caller.old.sent }
    ensures seen { IsPrefix caller.old.reader.seen caller.new.reader.seen }
    ensures line { IfOk result (λ line. line.items ≡ reply_head place (length caller.new.reader.seen)
        ++ (A.answer_of (state_of S.step (history caller.new.reader.base caller.new.reader.seen)) query.now ++ line_feed ∷ [])) }
{
    gate.enter(BEFORE_READS + caller.number() as u64);
    let version = caller.snapshot(rt, alloc)?;
    let line = reply_line::<A, S>(alloc, place, &version, query)?;
    Ok(line)
}

/// One record of the caller's.
fn run_record<A: Answers<S>, S: State, R: Wait, G: Gate>(
    rt: &R,
    alloc: Global,
    gate: &G,
    record: &Record<S::Op, A::Query>,
    caller: &mut Caller<S>,
    lines: &mut Lines,
) -> Result<(), NoMemory>
    ensures { OnOk result ((new : List (List ℕ)) × (lines.new ≡ lines.old ++ new) × HasRun S.step A.answer_of («record».now ∷ []) caller.old caller.new new) }
{
    match &record.act {
        Act::Submit { batch } => {
            submit(alloc, caller, record.place, batch)?;
            Ok(())
        }
        Act::Read { query } => {
            let line = read::<A, S, R, G>(rt, alloc, gate, caller, record.place, query)?;
            lines.push(line)?;
            Ok(())
        }
    }
}

/// The record, if it is of the caller with this number.
fn run_own<A: Answers<S>, S: State, R: Wait, G: Gate>(
    rt: &R,
    alloc: Global,
    gate: &G,
    number: u32,
    record: &Record<S::Op, A::Query>,
    caller: &mut Caller<S>,
    lines: &mut Lines,
) -> Result<(), NoMemory>
    ensures { OnOk result ((new : List (List ℕ)) × (lines.new ≡ lines.old ++ new) × HasRun S.step A.answer_of (records_of number («record».now ∷ [])) caller.old caller.new new) }
{
    if record.caller != number {
        return Ok(());
    }
    run_record::<A, S, R, G>(rt, alloc, gate, record, caller, lines)?;
    Ok(())
}

/// The caller's own of the records, in order: it submits batches, and answers each read by a version that it has seen between the
/// first and the last record, whose number never falls from one read to the next. After a refusal nothing is said of the lines.
pub fn run_caller<A: Answers<S>, S: State, R: Wait, G: Gate>(
    rt: &R,
    alloc: Global,
    gate: &G,
    records: &[Record<S::Op, A::Query>],
    caller: &mut Caller<S>,
    lines: &mut Lines,
) -> Result<(), NoMemory>
    ensures { OnOk result ((new : List (List ℕ)) × (lines.new ≡ lines.old ++ new) × HasRun S.step A.answer_of (records_of caller.old.number records.now) caller.old caller.new new) }
{
    let number = caller.number();
    for record in records {
        run_own::<A, S, R, G>(rt, alloc, gate, number, record, caller, lines)?;
    }
    Ok(())
}
