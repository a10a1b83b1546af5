//! The end of a root that takes its versions.
ghost use Rattle.std.specs.Prelude.{◌≡◌, ◌≢◌, ◌+◌, ◌<◌, ◌≤◌, IfOk, IfErr};
ghost use Rattle.std.specs.Arc.{arc_value};
ghost use Rattle.versions.specs.History.{history};
ghost use Rattle.versions.specs.Prefix.{IsPrefix, longer};
ghost use Rattle.version_root.specs.Seats.{Reading};

use crate::notice::Notice;
use crate::steps::{Place, Root, contend, copy_held, give_back, take_in, tell};
use aug_monoid::NoMemory;
use std::alloc::Global;
use std::marker::Model;
use std::sync::{Arc, Wait};
use std::thread;
use thiserror::Error;
use versions::{State, Version};

/// Why a reader took no version.
#[derive(Debug, Drop, Error)]
pub enum Missed {
    /// The turn of the reader's stripe was taken, by the end with this number: 1 is the writer, and readers have 2 and more.
    #[error("Busy")]
    Busy { found: u64 },
    /// Memory for the version could not be had.
    #[error("NoMemory")]
    NoMemory,
}

impl From<NoMemory> for Missed {
    ghost use Rattle.std.specs.Prelude.{◌≡◌};
    ghost use Rattle.version_root.specs.declared.reader.Missed.TheVariants as missed;

    ghost from_gives = { λ _ cause. cause ≡ missed.NoMemory };

    fn from(_: NoMemory) -> Missed {
        Missed::NoMemory
    }
}

/// An end that takes the root's versions, seen as its root, the root's base, its number, what it has seen,
/// how many turns it has lost, and the word that the last lost turn found.
pub struct Reader<S: State> {
    pub(crate) root: Arc<Root<S>>,
    pub(crate) seat: Place<S>,
    pub(crate) number: u64,
    pub(crate) stripe: usize,
}

impl<S: State> Drop for Reader<S> {
    fn drop(self) {
        let Reader {
            root,
            seat,
            number: _,
            stripe: _,
        } = self;
        drop(root);
        drop(seat);
    }
}

impl<S: State> Model for Reader<S> {
    ghost use Rattle.std.specs.Arc.{arc_value};
    ghost use Rattle.version_root.specs.Seats.{Reading, reading, IsReader};

    ghost Value = { Reading S S.Op };

    ghost view = { λ a. reading (arc_value a.root).shared.table_id (arc_value a.root).shared.key.base.value a.seat.me.0 };

    ghost invariant = { λ a. IsReader (arc_value a.root).shared.table_id (arc_value a.root).shared.key.base.value a.number a.stripe a.seat };
}

impl<S: State> Reader<S> {
    ghost use Rattle.version_root.specs.Answers.{Stays, Advances, Misses};

    /// The reader's number, from 2 on. O(1).
    pub fn number(&self) -> u64
        ensures { result ≡ self.now.number }
    {
        self.number
    }

    /// The newest version, whose journal begins with all that this reader has seen.
    /// It tries the turn of its stripe once and never waits; `Busy` comes exactly where that one compare-exchange found it taken.
    /// It takes the time of a share of a version: O(1), and before the first `publish` that of a share of the base.
    pub fn try_snapshot(&mut self, alloc: Global) -> Result<Version<S>, Missed>
        ensures same { Stays self.old self.new }
        ensures ok { IfOk result (λ version. (version ≡ history self.new.base self.new.seen) × Advances self.old self.new) }
        ensures err { IfErr result (Misses self.old self.new) }
    {
        let found = contend(&self.root.shared, &mut self.seat, self.stripe, self.number);
        if found != 0 {
            return Err(Missed::Busy { found });
        }
        let copy = copy_held(&self.root.shared, &mut self.seat, self.stripe, alloc);
        give_back(&self.root.shared, &mut self.seat, self.stripe);
        Ok(copy?)
    }

    /// The newest version, as by `try_snapshot`, as soon as the turn is free, and in its time for each time that it tries. It may wait.
    pub fn snapshot<R: Wait>(&mut self, rt: &R, alloc: Global) -> Result<Version<S>, NoMemory>
        ensures same { Stays self.old self.new }
        ensures seen { IsPrefix self.old.seen self.new.seen }
        ensures lost { self.old.lost ≤ self.new.lost }
        ensures ok { IfOk result (λ version. version ≡ history self.new.base self.new.seen) }
    {
        for _ in rt.forever() {
            match self.try_snapshot(alloc) {
                Ok(version) => return Ok(version),
                Err(Missed::NoMemory) => return Err(NoMemory),
                Err(Missed::Busy { found: _ }) => thread::yield_now(),
            }
        }
        unreachable!()
    }

    /// A notice of what this reader has seen, for another reader or the writer. O(1).
    pub fn note(&mut self) -> Result<Notice<S>, NoMemory>
        ensures same { self.new ≡ self.old }
        ensures notice { IfOk result (λ notice. notice ≡ record { root = self.old.root; base = self.old.base; seen = self.old.seen }) }
    {
        let root = Arc::try_clone(&self.root)?;
        let seat = tell(&self.root.shared, &mut self.seat);
        Ok(Notice { root, seat })
    }

    /// Takes in a notice: from now on this reader sees no less than it tells of. O(1), and it takes no memory.
    pub fn learn(&mut self, notice: Notice<S>)
        requires { notice.root ≡ self.old.root }
        ensures same { Stays self.old self.new }
        ensures seen { IsPrefix self.old.seen self.new.seen × IsPrefix notice.seen self.new.seen }
        ensures lost { self.old.lost ≤ self.new.lost }
        ensures longer { self.new.seen ≡ longer self.old.seen notice.seen }
    {
        let Notice { root: _, seat } = notice;
        take_in(&self.root.shared, &mut self.seat, seat, self.stripe);
    }
}
