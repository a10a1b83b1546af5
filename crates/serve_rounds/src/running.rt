//! The callers of a round, each in a thread of its own.
ghost use Rattle.std.specs.Prelude.{◌≡◌, ◌<◌, ◌≤◌, ◌++◌, IfOk, length};
ghost use Rattle.std.specs.Thread.{IsSend, IsSync};
ghost use Rattle.std.specs.VecDeque.{deque_len};
ghost use Rattle.version_root.specs.Public.{IsPrefix};
ghost use Rattle.batch_store.specs.Keeping.{SameStore};
ghost use Rattle.serve_callers.specs.Running.{HasRun};
ghost use Rattle.serve_text.specs.Records.{records_of};
ghost use Rattle.serve_rounds.specs.Rounds.{Follows, HaveRun};

use crate::ran::Ran;
use aug_monoid::NoMemory;
use batch_store::{Caller, State, Store};
use fork_join::{Gate, On};
use serve_callers::{Lines, combine, run_caller};
use serve_text::{Answers, Record};
use std::alloc::Global;
use std::collections::VecDeque;
use std::marker::Sync;
use std::sync::Wait;
use std::thread;
use std::thread::Threads;
use versions::SyncState;

/// A round: where it runs, its records, which callers have some, and how many turns the combiner makes.
#[derive(Drop)]
pub(crate) struct Round<'a, A: Answers<S>, S: SyncState, R, G> {
    pub(crate) on: On<'a, R, G>,
    pub(crate) records: &'a [Record<S::Op, A::Query>],
    pub(crate) busy: &'a [bool],
    pub(crate) turns: u64,
}

impl<'a, A: Answers<S>, S: SyncState, R: Wait, G: Gate> Round<'a, A, S, R, G> {
    fn is_busy(&self, caller: &Caller<S>) -> bool {
        match self.busy.get(caller.number() as usize) {
            Some(busy) => *busy,
            None => false,
        }
    }

    /// How many of the callers have records.
    fn count(&self, callers: &VecDeque<Caller<S>>) -> u64
        ensures { result ≤ deque_len callers.now }
    {
        let mut count = 0;
        for caller in callers {
            if self.is_busy(caller) {
                count += 1;
            }
        }
        count
    }

    /// The place behind the first half of the callers that have records. There is a caller before it, and one behind.
    fn seam(&self, callers: &VecDeque<Caller<S>>, half: u64) -> usize
        requires { 2 ≤ deque_len callers.now }
        ensures { (1 ≤ result) × (result < deque_len callers.now) }
    {
        let mut left = half;
        let mut at: usize = 0;
        for caller in callers {
            if left == 0 {
                break;
            }
            if self.is_busy(caller) {
                left -= 1;
            }
            at = at.saturating_add(1);
        }
        at.clamp(1, callers.len() - 1)
    }

    /// A caller's own records.
    fn run_one(&self, alloc: Global, caller: Caller<S>) -> Result<Ran<S>, NoMemory>
        ensures { IfOk result (λ ran. HasRun S.step A.answer_of (records_of caller.number self.now.records.now) caller ran.0 ran.1) }
    {
        let mut caller = caller;
        let mut lines = Lines::new(alloc);
        run_caller::<A, S, R, G>(
            self.on.rt,
            alloc,
            self.on.gate,
            self.records,
            &mut caller,
            &mut lines,
        )?;
        Ok(Ran { caller, lines })
    }

    /// The callers one after another.
    fn run_in_turn(&self, alloc: Global, callers: Vec<Caller<S>>) -> Result<Vec<Ran<S>>, NoMemory>
        ensures { IfOk result (λ ran. HaveRun S.step A.answer_of self.now.records.now callers.items ran.items) }
    {
        let mut ran = Vec::with_capacity(alloc, callers.len())?;
        for caller in callers {
            ran.push(self.run_one(alloc, caller)?)?;
        }
        Ok(ran)
    }
}

impl<'a, A: Answers<S>, S: SyncState, R: Threads + Wait + Sync, G: Gate> Round<'a, A, S, R, G> {
    /// The combiner's turns.
    pub(crate) fn make_turns(&self, alloc: Global, store: Store<S>) -> Result<Store<S>, NoMemory>
        ensures { IfOk result (λ later. SameStore store later × IsPrefix store.journal later.journal) }
    {
        let later = combine(self.on, alloc, store, self.turns)?;
        Ok(later)
    }

    /// The combiner's turns in a thread. The store comes back as the one item of a list, for the proof alone: a thread that answers with a
    /// bare store is past the bound of the check.
    pub(crate) fn turns_of_thread(
        &self,
        alloc: Global,
        store: Store<S>,
    ) -> Result<Vec<Store<S>>, NoMemory>
        ensures { IfOk result (λ stores. Follows store stores.items) }
    {
        let later = self.make_turns(alloc, store)?;
        let mut stores = Vec::with_capacity(alloc, 1)?;
        stores.push(later)?;
        Ok(stores)
    }
}

/// What two halves leave, in order.
fn joined<S: State>(front: Vec<Ran<S>>, back: Vec<Ran<S>>) -> Result<Vec<Ran<S>>, NoMemory>
    ensures { IfOk result (λ all. all.items ≡ front.items ++ back.items) }
{
    let mut all = front;
    let mut back = back;
    all.append(&mut back)?;
    Ok(all)
}

/// The callers, by halves of those that have records, until each of these has a thread of its own. Where none can be made, one half
/// waits for the other.
#[cycle(run_callers)]
pub(crate) fn run_callers<A: Answers<S>, S: SyncState, R: Threads + Wait + Sync, G: Gate>(
    round: &Round<'_, A, S, R, G>,
    alloc: Global,
    callers: VecDeque<Caller<S>>,
) -> Result<Vec<Ran<S>>, NoMemory>
    ensures { IfOk result (λ ran. HaveRun S.step A.answer_of round.now.records.now callers.items ran.items) }
{
    let mut front = callers;
    let busy = round.count(&front);
    if busy < 2 {
        return round.run_in_turn(alloc, Vec::from(front));
    }
    let back = front.split_off(round.seam(&front, busy / 2))?;
    let (front, back) = thread::join(
        round.on.rt,
        move || -> Result<Vec<Ran<S>>, NoMemory>
            requires { IsSync R.row × IsSync G.row }
            ensures { IfOk result (λ ran. HaveRun S.step A.answer_of round.entry.now.records.now front.items ran.items) }
        { run_callers(round, alloc, front) },
        move || -> Result<Vec<Ran<S>>, NoMemory>
            requires { IsSync R.row × IsSync G.row }
            ensures { IfOk result (λ ran. HaveRun S.step A.answer_of round.entry.now.records.now back.items ran.items) }
        { run_callers(round, alloc, back) },
    );
    joined(front?, back?)
}
