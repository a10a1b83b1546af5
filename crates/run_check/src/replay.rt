//! The answers of a history, made anew.
ghost use Rattle.std.specs.Prelude.{◌≡◌, ◌≢◌, ◌≤◌, ◌↔◌, IfOk, IsTrue, All, length, map, take, drop};
ghost use Rattle.std.specs.Option.{MatchOption};
ghost use Rattle.versions.specs.History.{after};
ghost use Rattle.run_check.specs.Reading.{AreRight, answer_to, answers_told, between};
ghost use Rattle.run_check.specs.Turns.{AreTurns};

use crate::reads::Reading;
use crate::turns::{Turn, sorted_turns};
use aug_monoid::NoMemory;
use fork_join::{Gate, On};
use run_text::Reply;
use serve_text::Answers;
use std::alloc::Global;
use std::marker::Sync;
use std::thread::Threads;
use versions::{Batch, State, SyncState};

/// The state after so many batches.
#[derive(Drop)]
struct Standing<S: State> {
    state: S,
    number: u64,
}

/// The state after so many of the batches: those that it lacks are applied at once.
fn advanced<S: SyncState, R: Threads + Sync, G: Gate>(
    on: On<R, G>,
    alloc: Global,
    standing: Standing<S>,
    batches: &[Batch<S::Op>],
    number: u64,
) -> Result<Standing<S>, NoMemory>
    requires least { standing.number ≤ number }
    requires most { number ≤ length batches.now }
    ensures number { IfOk result (λ later. later.number ≡ number) }
    ensures state { IfOk result (λ later. later.state ≡ after S.step standing.state (between standing.number number batches.now)) }
{
    let Standing {
        state,
        number: done,
    } = standing;
    if done == number {
        return Ok(Standing { state, number });
    }
    let lacking = &batches[done as usize..number as usize];
    let state = state.changed(on.free(), alloc, lacking)?;
    Ok(Standing { state, number })
}

/// Whether this is what the state answers. What it answers is made in the buffer.
fn is_answer<A: Answers<S>, S: SyncState>(
    alloc: Global,
    state: &S,
    query: &A::Query,
    answer: &[u8],
    buffer: &mut Vec<u8>,
) -> Result<bool, NoMemory>
    ensures { IfOk result (λ is. IsTrue is ↔ (answer.now ≡ A.answer_of state.now query.now)) }
{
    buffer.clear();
    A::answer(alloc, state, query, buffer)?;
    Ok(answer == buffer.as_slice())
}

/// Whether this is the last line of a text that ends in the state.
fn is_last_line<A: Answers<S>, S: SyncState>(
    alloc: Global,
    state: &S,
    last: &[u8],
) -> Result<bool, NoMemory>
    ensures { IfOk result (λ is. IsTrue is ↔ (last.now ≡ A.last_of state.now)) }
{
    let mut made = Vec::new(alloc);
    A::write_last(alloc, state, &mut made)?;
    Ok(last == made.as_slice())
}

/// One read: the state goes on to its number. None where the line tells another answer than the state's.
fn take_turn<A: Answers<S>, S: SyncState, R: Threads + Sync, G: Gate>(
    on: On<R, G>,
    alloc: Global,
    batches: &[Batch<S::Op>],
    read: &Reading<'_, A::Query>,
    reply: &Reply<'_>,
    standing: Standing<S>,
    buffer: &mut Vec<u8>,
) -> Result<Option<Standing<S>>, NoMemory>
    requires least { standing.number ≤ read.now.number }
    requires most { read.now.number ≤ length batches.now }
    ensures { IfOk result (λ o. MatchOption o (reply.now.answer ≢ A.answer_of (after S.step standing.state (between standing.number read.now.number batches.now)) read.now.asked.query) (λ next. (next.number ≡ read.now.number) × (next.state ≡ after S.step standing.state (between standing.number read.now.number batches.now)) × (reply.now.answer ≡ A.answer_of next.state read.now.asked.query))) }
{
    let next = advanced(on, alloc, standing, batches, read.number)?;
    if is_answer::<A, S>(alloc, &next.state, read.query, reply.answer, buffer)? {
        Ok(Some(next))
    } else {
        Ok(None)
    }
}

/// The reads in the order of their numbers: the state of the last of them. None where the line of one tells another answer than its own.
fn take_turns<A: Answers<S>, S: SyncState, R: Threads + Sync, G: Gate>(
    on: On<R, G>,
    alloc: Global,
    base: S,
    batches: &[Batch<S::Op>],
    reads: &[Reading<'_, A::Query>],
    replies: &[Reply<'_>],
    turns: &[Turn],
) -> Result<Option<Standing<S>>, NoMemory>
    requires turns { AreTurns reads.now turns.now }
    requires told { length replies.now ≡ length reads.now }
    requires most { All (λ a. a.number ≤ length batches.now) reads.now }
    ensures { IfOk result (λ o. MatchOption o (answers_told replies.now ≢ map (answer_to S.step A.answer_of base batches.now) reads.now) (λ last. (last.number ≤ length batches.now) × (last.state ≡ after S.step base (take last.number batches.now)) × (answers_told replies.now ≡ map (answer_to S.step A.answer_of base batches.now) reads.now))) }
{
    let mut standing = Standing {
        state: base,
        number: 0,
    };
    let mut buffer = Vec::new(alloc);
    for turn in turns {
        let Some(next) = take_turn::<A, S, R, G>(
            on,
            alloc,
            batches,
            &reads[turn.at],
            &replies[turn.at],
            standing,
            &mut buffer,
        )?
        else {
            return Ok(None);
        };
        standing = next;
    }
    Ok(Some(standing))
}

/// Whether the last line is that of the state after all batches.
fn ends_right<A: Answers<S>, S: SyncState, R: Threads + Sync, G: Gate>(
    on: On<R, G>,
    alloc: Global,
    standing: Standing<S>,
    batches: &[Batch<S::Op>],
    last: &[u8],
) -> Result<bool, NoMemory>
    requires { standing.number ≤ length batches.now }
    ensures { IfOk result (λ right. IsTrue right ↔ (last.now ≡ A.last_of (after S.step standing.state (drop standing.number batches.now)))) }
{
    let all = advanced(on, alloc, standing, batches, batches.len() as u64)?;
    is_last_line::<A, S>(alloc, &all.state, last)
}

/// Whether the lines tell what the reads are answered, and the last line is right. The batches between two of the reads' versions are applied
/// at once, each batch once, to the one state that there is, which a read asks when it has as many batches as the read's number says.
pub(crate) fn are_right<A: Answers<S>, S: SyncState, R: Threads + Sync, G: Gate>(
    on: On<R, G>,
    alloc: Global,
    base: S,
    batches: &[Batch<S::Op>],
    reads: &[Reading<'_, A::Query>],
    replies: &[Reply<'_>],
    last: &[u8],
) -> Result<bool, NoMemory>
    requires told { length replies.now ≡ length reads.now }
    requires most { All (λ a. a.number ≤ length batches.now) reads.now }
    ensures { IfOk result (λ right. IsTrue right ↔ AreRight S.step A.answer_of A.last_of base batches.now reads.now replies.now last.now) }
{
    let turns = sorted_turns(alloc, reads)?;
    let Some(standing) = take_turns::<A, S, R, G>(
        on,
        alloc,
        base,
        batches,
        reads,
        replies,
        turns.as_slice(),
    )?
    else {
        return Ok(false);
    };
    ends_right::<A, S, R, G>(on, alloc, standing, batches, last)
}
