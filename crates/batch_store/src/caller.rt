//! One caller of a store.
ghost use Rattle.std.specs.Prelude.{◌≡◌, ◌≤◌, ◌∷◌, [], ◌++◌, OnOk, OnErr, IfOk, IfErr};
ghost use Rattle.version_root.specs.Public.{history, IsPrefix, Advances, Misses};
ghost use Rattle.batch_store.specs.Calling.{SameCaller};
ghost use Rattle.batch_store.specs.declared.submitted.Submitted.{Submitted};

use crate::submitted::Submitted;
use aug_monoid::NoMemory;
use lanes::{Refused, Submitter};
use std::alloc::Global;
use std::marker::Model;
use std::sync::Wait;
use version_root::{Batch, Missed, Reader, State, Version};

/// One caller of a store, seen as its number, its lane with what it has sent, and its reader of the store's root.
pub struct Caller<S: State> {
    pub(crate) number: u32,
    pub(crate) submitter: Submitter<Submitted<S::Op>>,
    pub(crate) reader: Reader<S>,
}

impl<S: State> Drop for Caller<S> {
    fn drop(self) {
        let Caller {
            number: _,
            submitter,
            reader,
        } = self;
        drop(submitter);
        drop(reader);
    }
}

impl<S: State> Model for Caller<S> {
    ghost use Rattle.batch_store.specs.Calling.{Calling, calling};

    ghost Value = { Calling S S.Op };

    ghost view = { λ a. calling a.number a.submitter a.reader };
}

impl<S: State> Caller<S> {
    /// The caller's number, from 0 on. O(1).
    pub fn number(&self) -> u32
        ensures { result ≡ self.now.number }
    {
        self.number
    }

    /// Sends a batch with a tag. It never blocks; the store's next turn may take it, and its next end of a round does.
    /// A refusal hands the batch back, and nothing was sent. O(1) on average, as a lane's `submit`.
    pub fn submit(&mut self, tag: u64, batch: Batch<S::Op>) -> Result<(), Refused<Batch<S::Op>>>
        ensures same { SameCaller self.old self.new }
        ensures reader { self.new.reader ≡ self.old.reader }
        ensures ok { OnOk result (self.new.sent ≡ self.old.sent ++ (record { tag = tag; batch = batch }) ∷ []) }
        ensures value { IfErr result (λ refused. refused.value ≡ batch) }
        ensures err { OnErr result (self.new ≡ self.old) }
    {
        match self.submitter.submit(Submitted { tag, batch }) {
            Ok(()) => Ok(()),
            Err(Refused { value, cause }) => {
                let Submitted { tag: _, batch } = value;
                Err(Refused {
                    value: batch,
                    cause,
                })
            }
        }
    }

    /// The newest version that is published, as by `Reader::try_snapshot` and in its time: it never waits.
    pub fn try_snapshot(&mut self, alloc: Global) -> Result<Version<S>, Missed>
        ensures same { SameCaller self.old self.new }
        ensures sent { self.new.sent ≡ self.old.sent }
        ensures ok { IfOk result (λ version. (version ≡ history self.new.reader.base self.new.reader.seen) × Advances self.old.reader self.new.reader) }
        ensures err { IfErr result (Misses self.old.reader self.new.reader) }
    {
        self.reader.try_snapshot(alloc)
    }

    /// The newest version that is published, as soon as the turn of the reader's stripe is free, in the time of a `try_snapshot` for
    /// each time that it tries. It may wait.
    pub fn snapshot<R: Wait>(&mut self, rt: &R, alloc: Global) -> Result<Version<S>, NoMemory>
        ensures same { SameCaller self.old self.new }
        ensures sent { self.new.sent ≡ self.old.sent }
        ensures seen { IsPrefix self.old.reader.seen self.new.reader.seen }
        ensures lost { self.old.reader.lost ≤ self.new.reader.lost }
        ensures ok { IfOk result (λ version. version ≡ history self.new.reader.base self.new.reader.seen) }
    {
        self.reader.snapshot(rt, alloc)
    }
}
