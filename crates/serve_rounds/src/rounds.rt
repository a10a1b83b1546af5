//! All rounds, one after another.
ghost use Rattle.std.specs.Prelude.{◌≡◌, ◌<◌, ◌≤◌, IfOk, All, drop, length, take};
ghost use Rattle.std.specs.List.Sorted.{IsNonDecreasingBy};
ghost use Rattle.batch_store.specs.Round.{IsNewStore};
ghost use Rattle.serve_text.specs.Histories.{AreInRounds};
ghost use Rattle.serve_rounds.specs.Rounds.{HasServed};

use crate::played::Played;
use crate::round::play_round;
use aug_monoid::NoMemory;
use batch_store::{Caller, Store};
use fork_join::{Gate, On};
use serve_text::{Answers, Record};
use std::alloc::Global;
use std::marker::Sync;
use std::sync::Wait;
use std::thread::Threads;
use versions::SyncState;

/// How many of the records are of the first one's round.
fn round_length<O: Drop, Q: Drop>(first: u64, records: &[Record<O, Q>]) -> usize
    requires rise { IsNonDecreasingBy (λ r. r.round) records.now }
    requires least { All (λ r. first ≤ r.round) records.now }
    ensures within { result ≤ length records.now }
    ensures here { All (λ r. r.round ≡ first) (take result records.now) }
    ensures later { All (λ r. first < r.round) (drop result records.now) }
{
    records.partition_point(|record| record.round == first)
}

/// Runs the records of a new store's callers in their rounds, which do not fall. In each round the callers that have records run side by
/// side, one in the thread that calls and each other in a thread of its own where one can be made, beside a combiner that makes as many
/// turns as the round has batches, one at least; then the round ends. A round of one record starts no thread, and one without records
/// takes no time. A round of n records and c callers with records takes O(c * n) looks at records, beside what they do.
///
/// It enters the gate at 200 before each turn, at 201 after a turn that published, and at 256 + c before each read of caller c; what a
/// state forks enters it nowhere. It may wait. On a refusal store and callers are dropped.
pub fn run_rounds<A: Answers<S>, S: SyncState, R: Threads + Wait + Sync, G: Gate>(
    on: On<R, G>,
    alloc: Global,
    store: Store<S>,
    callers: Vec<Caller<S>>,
    records: &[Record<S::Op, A::Query>],
) -> Result<Played<S>, NoMemory>
    requires new { IsNewStore store.base (length callers.items) store callers.items }
    requires rounds { AreInRounds (length callers.items) records.now }
    ensures { IfOk result (λ played. HasServed S.step A.answer_of records.now store played.store callers.items played.callers.items played.text.items) }
{
    let mut played = Played {
        store,
        callers,
        text: Vec::new(alloc),
    };
    let mut left = records;
    while let Some(record) = left.first() {
        let (round, later) = left.split_at(round_length(record.round, left));
        played = play_round::<A, S, R, G>(on, alloc, played, round)?;
        left = later;
    }
    Ok(played)
}
