//! A state with the journal that led to it.
ghost use Rattle.std.specs.Prelude.{◌≡◌, length, ◌++◌, [], IfOk};
ghost use Rattle.versions.specs.History.{history, state_of, after, batches_in};

use crate::batch::{Batch, Entry};
use crate::state::State;
use aug_monoid::{NoMemory, Share};
use fork_join::{Cut, Gate};
use shared_log::SharedLog;
use std::alloc::Global;
use std::marker::{Model, Sync};
use std::sync::Arc;
use std::thread::Threads;

/// A version, seen as its base and its journal. Its state is that after the journal's operations, applied in order to the base.
pub struct Version<S: State> {
    held: Held<S>,
}

/// Where the parts of a version stand: in the version itself, which takes no memory, or in a block that may have many owners.
#[derive(Drop)]
enum Held<S: State> {
    Own(Parts<S>),
    Shared(Arc<Parts<S>>),
}

/// What a version consists of, seen as the version is.
#[derive(Drop)]
struct Parts<S: State> {
    base: S,
    journal: SharedLog<Entry<S::Op>>,
    /// The state, unless it is the base.
    state: Option<S>,
}

impl<S: State> Model for Parts<S> {
    ghost use Rattle.versions.specs.History.{History, history, IsStateOf};

    ghost Value = { History S S.Op };

    ghost view = { λ a. history a.base a.journal };

    ghost invariant = { λ a. IsStateOf S.step (history a.base a.journal) a.state };
}

impl<S: State> Model for Version<S> {
    ghost use Rattle.versions.specs.History.{History};

    ghost Value = { History S S.Op };

    ghost use Rattle.versions.specs.Held.{parts_of};

    ghost view = { λ a. parts_of a.held };
}

impl<S: State> Drop for Version<S> {
    fn drop(self) {
        let Version { held } = self;
        drop(held);
    }
}

impl<S: State> Version<S> {
    /// The version with this base and an empty journal, in O(1). It takes no memory and makes no copy.
    pub fn first(base: S) -> Version<S>
        ensures { result ≡ history base [] }
    {
        Version {
            held: Held::Own(Parts {
                base,
                journal: SharedLog::new(),
                state: None,
            }),
        }
    }

    /// Lends the parts, wherever they stand.
    fn parts(&self) -> &Parts<S>
        ensures { result.now ≡ self.now }
    {
        match &self.held {
            Held::Own(parts) => parts,
            Held::Shared(parts) => parts,
        }
    }

    /// How many entries the journal has, in O(1).
    pub fn number(&self) -> u64
        ensures { result ≡ length self.now.journal }
    {
        self.parts().journal.len()
    }

    /// Lends the state after the journal's operations, in O(1).
    pub fn state(&self) -> &S
        ensures { result.now ≡ state_of S.step self.now }
    {
        let parts = self.parts();
        match &parts.state {
            None => &parts.base,
            Some(state) => state,
        }
    }

    /// Lends the journal, in O(1). It keeps every batch, so a version's memory grows with them and never gets less.
    pub fn journal(&self) -> &SharedLog<Entry<S::Op>>
        ensures { result.now ≡ self.now.journal }
    {
        &self.parts().journal
    }

    /// The same version with parts of its own: those who share it count no owners together with those who share this one. O(1),
    /// beside the shares of the base and the state.
    pub fn apart(&self, alloc: Global) -> Result<Version<S>, NoMemory>
        ensures { IfOk result (λ version. version ≡ self.now) }
    {
        let parts = self.parts().share(alloc)?;
        let held = match &self.held {
            Held::Own(_) => Held::Own(parts),
            Held::Shared(_) => Held::Shared(Arc::new(alloc, parts)?),
        };
        Ok(Version { held })
    }

    /// The version with the same base, and with the entries at the end of the journal.
    /// It applies the entries' operations alone, by the state's `apply`, and pushes one entry after another: O(1) an entry, as
    /// `SharedLog::push`, beside what `apply` takes.
    pub fn extend<R: Threads + Sync, G: Gate>(
        &self,
        rt: &R,
        alloc: Global,
        gate: &G,
        cut: Cut,
        entries: &[Entry<S::Op>],
    ) -> Result<Version<S>, NoMemory>
        ensures { IfOk result (λ version. version ≡ history self.now.base (self.now.journal ++ entries.now)) }
    {
        let batches = batches_of(alloc, entries)?;
        let state = self
            .state()
            .apply(rt, alloc, gate, cut, batches.as_slice())?;
        let parts = self.parts();
        let longer = Parts {
            base: parts.base.share(alloc)?,
            journal: with_entries(alloc, &parts.journal, entries)?,
            state: Some(state),
        };
        Ok(Version {
            held: Held::Shared(Arc::new(alloc, longer)?),
        })
    }
}

/// The batches of the entries.
fn batches_of<O: Share>(alloc: Global, entries: &[Entry<O>]) -> Result<Vec<Batch<O>>, NoMemory>
    ensures { IfOk result (λ batches. batches.items ≡ batches_in entries.now) }
{
    let mut batches = Vec::with_capacity(alloc, entries.len())?;
    for entry in entries {
        batches.push(entry.batch.share(alloc)?)?;
    }
    Ok(batches)
}

/// The journal, and then the entries.
fn with_entries<O: Share>(
    alloc: Global,
    journal: &SharedLog<Entry<O>>,
    entries: &[Entry<O>],
) -> Result<SharedLog<Entry<O>>, NoMemory>
    ensures { IfOk result (λ longer. longer ≡ journal.now ++ entries.now) }
{
    let mut longer = journal.share(alloc)?;
    for entry in entries {
        longer = longer.push(alloc, entry.share(alloc)?)?;
    }
    Ok(longer)
}

impl<S: State> Share for Parts<S> {
    ghost never_refuses = { ⊥ };

    fn share(&self, alloc: Global) -> Result<Parts<S>, NoMemory> {
        Ok(Parts {
            base: self.base.share(alloc)?,
            journal: self.journal.share(alloc)?,
            state: self.state.share(alloc)?,
        })
    }
}

impl<S: State> Share for Version<S> {
    ghost never_refuses = { ⊥ };

    /// The parts that `extend` made get one more owner, in O(1). Of those that `first` made, each is shared, in the time that a share
    /// of the base takes.
    fn share(&self, alloc: Global) -> Result<Version<S>, NoMemory> {
        match &self.held {
            Held::Own(parts) => Ok(Version {
                held: Held::Own(parts.share(alloc)?),
            }),
            Held::Shared(parts) => Ok(Version {
                held: Held::Shared(Arc::try_clone(parts)?),
            }),
        }
    }
}
