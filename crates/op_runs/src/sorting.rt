//! Changes, sorted by their keys.
ghost use Rattle.std.specs.Prelude.{◌≡◌, ℕ, IfOk};
ghost use Rattle.std.specs.List.{All, filter_map, list_any};
ghost use Rattle.std.specs.List.Sorted.{IsSortedByKey};
ghost use Rattle.std.specs.Ordering.{nat_cmp};
ghost use Rattle.op_runs.specs.Steps.{IsSingle, change_of, changes_at, changes_key, is_of, outcome_at};

use crate::op::Op;
use crate::outcome::Outcome;
use aug_monoid::NoMemory;
use sorted_lists::sorted_pairs;
use std::alloc::Global;
use std::marker::Sync;
use std::thread::Threads;

/// The changes that operations make, in order.
fn changes_of(alloc: Global, ops: &[Op]) -> Result<Vec<(u64, Outcome)>, NoMemory>
    ensures { IfOk result (λ v. v.items ≡ filter_map change_of ops.now) }
{
    let mut changes = Vec::with_capacity(alloc, ops.len())?;
    for op in ops {
        if let Some(change) = op.change() {
            changes.push(change)?;
        }
    }
    Ok(changes)
}

/// The changes that operations make, sorted stably by their keys. The sort uses all processors where there are many.
pub(crate) fn sorted_changes<R: Threads + Sync>(
    rt: &R,
    alloc: Global,
    ops: &[Op],
) -> Result<Vec<(u64, Outcome)>, NoMemory>
    requires singles { All IsSingle ops.now }
    ensures sorted { IfOk result (λ v. IsSortedByKey (λ e. e.0) nat_cmp v.items) }
    ensures same { IfOk result (λ v. (q : ℕ) → changes_at v.items q ≡ outcome_at ops.now q) }
    ensures keys { IfOk result (λ v. (q : ℕ) → list_any (changes_key q) v.items ≡ list_any (is_of q) ops.now) }
{
    let changes = changes_of(alloc, ops)?;
    sorted_pairs(rt, alloc, changes)
}
