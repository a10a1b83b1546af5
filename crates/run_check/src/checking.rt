//! The check of a whole text.
ghost use Rattle.std.specs.Prelude.{◌≡◌, ◌<◌, ℕ, IfOk, All};
ghost use Rattle.serve_text.specs.Records.{reads_of};
ghost use Rattle.std.specs.List.Sorted.{IsNonDecreasingBy};
ghost use Rattle.std.specs.Option.{MatchOption};
ghost use Rattle.serve_text.specs.Determined.{AreNumbered};
ghost use Rattle.serve_text.specs.Histories.{AreInRounds};
ghost use Rattle.run_check.specs.Passing.{Passes, IsLeastFailing};
ghost use Rattle.run_text.specs.Forms.{Tells, told_text};
ghost use Rattle.run_check.specs.Reading.{asked_in, numbers_in, numbers_told};
ghost use Rattle.run_check.specs.Verdicts.{IsTheVerdict, IsVerdict, places_of};

use crate::placed::{Placed, batches_of, in_order, placed_of};
use crate::points::{are_of_their_rounds, callers_rise, numbers_rise, rounds_rise};
use crate::reads::{Reading, read_places, readings};
use crate::replay::are_right;
use crate::verdict::Verdict;
use aug_monoid::NoMemory;
use fork_join::{Gate, On};
use run_text::{Told, parts_told};
use serve_text::{Answers, Record};
use std::alloc::Global;
use std::marker::Sync;
use std::thread::Threads;
use versions::SyncState;

/// The least of the points 2 to 5 that does not hold.
fn broken_point<O: Drop, Q: Drop>(
    alloc: Global,
    callers: u32,
    placed: &[Placed<O>],
    ordered: &[Placed<O>],
    reads: &[Reading<'_, Q>],
) -> Result<Option<u32>, NoMemory>
    requires rise { IsNonDecreasingBy (λ p. p.round) placed.now }
    requires batches { All (λ p. p.entry.caller < callers) ordered.now }
    requires reads { All (λ a. a.asked.caller < callers) reads.now }
    ensures { IfOk result (λ o. MatchOption o ((k : ℕ) → Passes placed.now ordered.now reads.now k) (λ point. IsLeastFailing (Passes placed.now ordered.now reads.now) point)) }
{
    if !callers_rise(alloc, callers, ordered)? {
        return Ok(Some(2));
    }
    if !rounds_rise(ordered) {
        return Ok(Some(3));
    }
    if !are_of_their_rounds(placed, reads) {
        return Ok(Some(4));
    }
    if !numbers_rise(alloc, callers, reads)? {
        return Ok(Some(5));
    }
    Ok(None)
}

/// The verdict on a text of the form of a run, which tells this of the reads and the batches.
fn judged<A: Answers<S>, S: SyncState, R: Threads + Sync, G: Gate>(
    on: On<R, G>,
    alloc: Global,
    base: S,
    records: &[Record<S::Op, A::Query>],
    callers: u32,
    reads: &[Reading<'_, A::Query>],
    told: &Told<'_>,
) -> Result<Verdict, NoMemory>
    requires numbered { AreNumbered records.now }
    requires rounds { AreInRounds callers records.now }
    requires asked { asked_in reads.now ≡ reads_of records.now }
    requires numbers { numbers_in reads.now ≡ numbers_told told.now.replies.items }
    requires told { Tells (places_of records.now) told.now.replies.items told.now.order.items told.now.last.now (told_text told.now.replies.items told.now.order.items told.now.last.now) }
    ensures { IfOk result (IsVerdict S.step A.answer_of A.last_of base records.now (told_text told.now.replies.items told.now.order.items told.now.last.now)) }
{
    let placed = placed_of(alloc, records)?;
    let Some(ordered) = in_order(alloc, placed.as_slice(), told.order.as_slice())? else {
        return Ok(Verdict::No { point: 1 });
    };
    if let Some(point) = broken_point(
        alloc,
        callers,
        placed.as_slice(),
        ordered.as_slice(),
        reads,
    )? {
        return Ok(Verdict::No { point });
    }
    let batches = batches_of(alloc, ordered)?;
    if are_right::<A, S, R, G>(
        on,
        alloc,
        base,
        batches.as_slice(),
        reads,
        told.replies.as_slice(),
        told.last,
    )? {
        Ok(Verdict::Yes)
    } else {
        Ok(Verdict::No { point: 6 })
    }
}

/// Whether the text is that of a lawful run of the records from this state, and if not the least point that does not hold (`Verdict`).
/// A text has one verdict, and it is yes exactly where the text is that of a lawful history.
///
/// The text is read once. For n records, and a text of m bytes, it takes O(m + n log n) besides what the state takes: its batches are applied
/// once each, those between two reads' versions together, to the one state that there is, and each read is answered once, in the order of the
/// versions. The state's own changes fork within the cut, and nothing enters the gate. It compares each answer with that of the text as it is
/// made, and keeps none.
pub fn check<A: Answers<S>, S: SyncState, R: Threads + Sync, G: Gate>(
    on: On<R, G>,
    alloc: Global,
    base: S,
    records: &[Record<S::Op, A::Query>],
    callers: u32,
    text: &[u8],
) -> Result<Verdict, NoMemory>
    requires numbered { AreNumbered records.now }
    requires rounds { AreInRounds callers records.now }
    ensures { IfOk result (IsTheVerdict S.step A.answer_of A.last_of base records.now text.now) }
{
    let _few = records.len(); // for the proof alone: there are fewer than 2^64 records
    let places = read_places(alloc, records)?;
    let Some(told) = parts_told(alloc, places.as_slice(), text)? else {
        return Ok(Verdict::No { point: 0 });
    };
    let reads = readings(alloc, records, told.replies.as_slice())?;
    let verdict = judged::<A, S, R, G>(on, alloc, base, records, callers, reads.as_slice(), &told)?;
    Ok(verdict)
}
