//! The store.
ghost use Rattle.std.specs.Prelude.{◌≡◌, ◌≤◌, ◌⊎◌, List, [], ◌++◌, length, OnOk, OnErr, IfOk, IfErr};
ghost use Rattle.batch_store.specs.Journal.{AreReceived};
ghost use Rattle.batch_store.specs.Keeping.{SameStore, Publishes, Postpones};
ghost use Rattle.batch_store.specs.Round.{IsNewStore, AreCallersOf, Kept, KeepsBatches, EndsRound, IsLast};

use crate::caller::Caller;
use crate::closing::close;
use crate::collecting::gather;
use crate::inbox::Inbox;
use crate::opening::connect_all;
use crate::publishing::publish_all;
use aug_monoid::{NoMemory, Share};
use fork_join::{Cut, Gate, On};
use std::alloc::Global;
use std::marker::{Model, Sync};
use std::sync::Wait;
use std::thread::Threads;
use version_root::{State, Version, Writer, start};

/// The gate's place before a turn takes from the lanes.
const BEFORE_TAKING: u64 = 200;

/// The gate's place after a turn has published a longer version.
const AFTER_PUBLISHING: u64 = 201;

/// The one combiner of its callers' batches, seen as its root with the root's base, its lanes with what each has given,
/// the journal of what is published, and what was taken and is not yet published.
pub struct Store<S: State> {
    writer: Writer<S>,
    inbox: Inbox<S::Op>,
}

/// A store that could not be finished, and its callers, as the refused end of the round left them.
#[derive(Drop)]
pub struct Unfinished<S: State> {
    pub store: Store<S>,
    pub callers: Vec<Caller<S>>,
}

impl<S: State> Drop for Store<S> {
    fn drop(self) {
        let Store { writer, inbox } = self;
        drop(writer);
        drop(inbox);
    }
}

impl<S: State> Model for Store<S> {
    ghost use Rattle.std.specs.Prelude.{◌≡◌, ◌++◌, []};
    ghost use Rattle.batch_store.specs.Journal.{AreReceived};
    ghost use Rattle.batch_store.specs.Keeping.{Keeping, keeping};

    ghost Value = { Keeping S S.Op };

    ghost view = { λ a. keeping a.writer a.inbox.intakes.items a.inbox.pending.items };

    ghost invariant = { λ a. AreReceived (a.writer.journal ++ a.inbox.pending.items) a.inbox.intakes.items × (a.inbox.room.items ≡ []) };
}

/// Enters the gate where a longer version was published.
fn tell_gate<G: Gate>(gate: &G, grows: bool) {
    if grows {
        gate.enter(AFTER_PUBLISHING);
    }
}

impl<S: State> Store<S> {
    /// A store with so many callers, numbered from 0 in order, whose version has this base and an empty journal.
    /// It takes the memory of a root with so many readers, and of a lane for each caller. O(c) for c callers.
    pub fn start(
        alloc: Global,
        base: S,
        callers: u32,
    ) -> Result<(Store<S>, Vec<Caller<S>>), NoMemory>
        requires { (1 ≤ callers) × (callers ≤ 64) }
        ensures { IfOk result (λ made. IsNewStore base callers made.0 made.1.items) }
    {
        let (writer, readers) = start(alloc, base, callers)?;
        let (intakes, callers) = connect_all(alloc, readers)?;
        let inbox = Inbox::new(alloc, intakes)?;
        Ok((Store { writer, inbox }, callers))
    }

    /// Takes what the lanes show, at most 1024 batches of each, and publishes all that is pending as one version, if there is any.
    /// It answers how many batches are published. On a refusal nothing was published, and what was taken stays pending.
    ///
    /// It enters the gate at 200 before it takes, and at 201 after it has published a longer version.
    /// It takes memory only where a lane shows a batch or one is pending. It may wait for readers. O(n + c) for n batches that it
    /// takes or finds pending and c callers, beside what the state's `change` takes.
    pub fn turn<R: Threads + Wait + Sync, G: Gate>(
        &mut self,
        rt: &R,
        alloc: Global,
        gate: &G,
        cut: Cut,
    ) -> Result<u64, NoMemory>
        ensures same { SameStore self.old self.new }
        ensures received { AreReceived (self.new.journal ++ self.new.pending) self.new.lanes }
        ensures number { IfOk result (λ number. number ≡ length self.new.journal) }
        ensures ok { OnOk result (Publishes self.old self.new) }
        ensures err { OnErr result (Postpones self.old self.new) }
    {
        gate.enter(BEFORE_TAKING);
        self.inbox.take()?;
        let grows = !self.inbox.pending.is_empty();
        let pending = self.inbox.pending.as_slice();
        let number = publish_all(On { rt, gate, cut }, alloc, &mut self.writer, pending)?;
        self.inbox.pending.clear();
        tell_gate(gate, grows);
        Ok(number)
    }

    /// Takes all that the callers have sent, publishes all that is pending as one version, if there is any, and tells each caller the
    /// journal. It answers how many batches are published: as many as the callers have sent.
    /// After a refusal the call may be made again: nothing is lost, and what was published is not published again.
    ///
    /// O(n + c) for n batches and c callers, beside what the state's `change` takes. It enters the gate nowhere. It may wait for
    /// readers.
    pub fn end_round<R: Threads + Wait + Sync, G: Gate>(
        &mut self,
        rt: &R,
        alloc: Global,
        gate: &G,
        cut: Cut,
        callers: &mut [Caller<S>],
    ) -> Result<u64, NoMemory>
        requires { AreCallersOf self.old callers.old }
        ensures keeps { KeepsBatches self.old self.new callers.old callers.new }
        ensures number { IfOk result (λ number. number ≡ length self.new.journal) }
        ensures ok { OnOk result (EndsRound self.old self.new callers.old callers.new) }
        ensures err { OnErr result (Postpones self.old self.new ⊎ Publishes self.old self.new) }
    {
        gather(alloc, &mut self.inbox, callers)?;
        let number = close(
            On { rt, gate, cut },
            alloc,
            &mut self.writer,
            &mut self.inbox.pending,
            callers,
        )?;
        Ok(number)
    }

    /// The end of a round, and then a share of the version of the journal.
    fn last_round<R: Threads + Wait + Sync, G: Gate>(
        &mut self,
        on: On<R, G>,
        alloc: Global,
        callers: &mut [Caller<S>],
    ) -> Result<Version<S>, NoMemory>
        requires { AreCallersOf self.old callers.old }
        ensures keeps { KeepsBatches self.old self.new callers.old callers.new }
        ensures ok { IfOk result (λ version. IsLast self.old callers.old version) }
        ensures err { OnErr result (Postpones self.old self.new ⊎ Publishes self.old self.new) }
    {
        self.end_round(on.rt, alloc, on.gate, on.cut, callers)?;
        let version = self.writer.current().share(alloc)?;
        Ok(version)
    }

    /// The end of a round as by `end_round`, in its time, and then the version of all batches. A refusal hands store and callers
    /// back.
    pub fn finish<R: Threads + Wait + Sync, G: Gate>(
        self,
        rt: &R,
        alloc: Global,
        gate: &G,
        cut: Cut,
        callers: Vec<Caller<S>>,
    ) -> Result<Version<S>, Unfinished<S>>
        requires { AreCallersOf self callers.items }
        ensures before { Kept self callers.items }
        ensures ok { IfOk result (λ version. IsLast self callers.items version) }
        ensures keeps { IfErr result (λ left. KeepsBatches self left.store callers.items left.callers.items) }
        ensures err { IfErr result (λ left. Postpones self left.store ⊎ Publishes self left.store) }
    {
        let mut store = self;
        let mut callers = callers;
        match store.last_round(On { rt, gate, cut }, alloc, &mut callers) {
            Ok(version) => Ok(version),
            Err(NoMemory) => Err(Unfinished { store, callers }),
        }
    }
}
