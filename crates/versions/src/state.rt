//! States that change by operations.
ghost use Rattle.std.specs.Prelude.{◌≡◌, List, IfOk};
ghost use Rattle.std.specs.Thread.{IsSync};
ghost use Rattle.versions.specs.History.{after};

use crate::batch::Batch;
use aug_monoid::{NoMemory, Share};
use fork_join::{Cut, FreeGate, Gate, On};
use std::alloc::Global;
use std::marker::{Send, Sync};
use std::thread::Threads;

/// A state that changes by operations.
pub trait State: Share + Sized {
    /// An operation.
    type Op: Share;

    /// The state after one operation.
    ghost step: { Self → Self.Op → Self };

    /// The state after the operations of the batches in order. It may fork, by the free gate: what forks inside a method of an impl can call
    /// no gate but one that is named.
    /// The answer does not depend on where it runs. Each state says what it takes.
    fn change<R: Threads + Sync>(
        &self,
        on: On<R, FreeGate>,
        alloc: Global,
        batches: &[Batch<Self::Op>],
    ) -> Result<Self, NoMemory>
        requires { IsSync R.row }
        ensures { IfOk result (λ state. state ≡ after step self.now batches.now) };

    /// The state after the operations of the batches in order, of a state that is given up: what has no other owner may be changed in place.
    /// A state that refuses is gone. The answer is that of `change`.
    fn changed<R: Threads + Sync>(
        self,
        on: On<R, FreeGate>,
        alloc: Global,
        batches: &[Batch<Self::Op>],
    ) -> Result<Self, NoMemory>
        requires { IsSync R.row }
        ensures { IfOk result (λ state. state ≡ after step self batches.now) }
    {
        self.change(on, alloc, batches)
    }

    /// The state after the operations of the batches in order, as `change` makes it.
    /// The answer depends on neither the runtime nor the gate nor the cut, and the gate is not entered.
    final fn apply<R: Threads + Sync, G: Gate>(
        &self,
        rt: &R,
        alloc: Global,
        _gate: &G,
        cut: Cut,
        batches: &[Batch<Self::Op>],
    ) -> Result<Self, NoMemory>
        ensures { IfOk result (λ state. state ≡ after step self.now batches.now) }
    {
        self.change(
            On {
                rt,
                gate: &FreeGate,
                cut,
            },
            alloc,
            batches,
        )
    }
}

/// A `State` that crosses threads with its operations.
pub trait SyncState: State<Op: Send + Sync> + Send + Sync {}

impl<S: State<Op: Send + Sync> + Send + Sync> SyncState for S {}
