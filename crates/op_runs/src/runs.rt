//! What a run of operations comes to, as one list.
ghost use Rattle.std.specs.Prelude.{IfOk};
ghost use Rattle.std.specs.List.{All};
ghost use Rattle.op_runs.specs.Runs.{AreOutcomes};
ghost use Rattle.op_runs.specs.Steps.{IsSingle};

use crate::composing::composed;
use crate::op::Op;
use crate::outcome::Outcome;
use crate::sorting::sorted_changes;
use aug_monoid::NoMemory;
use std::alloc::Global;
use std::marker::Sync;
use std::thread::Threads;

/// What operations without wipes come to at each of their keys and at no other, by rising keys. The operations are sorted by their keys, on all
/// processors where there are many, and those of one key are composed: O(n * log n) for n operations. `NoMemory` for want of memory
/// alone.
pub fn outcomes_of<R: Threads + Sync>(
    rt: &R,
    alloc: Global,
    ops: &[Op],
) -> Result<Vec<(u64, Outcome)>, NoMemory>
    requires singles { All IsSingle ops.now }
    ensures { IfOk result (λ outcomes. AreOutcomes ops.now outcomes.items) }
{
    let changes = sorted_changes(rt, alloc, ops)?;
    composed(alloc, &changes)
}
