//! The intersection of two slices.
ghost use Rattle.std.specs.Prelude.{◌≡◌, ◌+◌, ◌≤◌, length, IfOk};
ghost use Rattle.map_model.specs.Entries.{IsIncreasing};
ghost use Rattle.map_model.specs.SetOperations.{intersect};

use crate::uniting::push_resolved;
use aug_monoid::{Key, NoMemory, Resolve, Share, Steps};
use std::alloc::Global;
use std::cmp::Ordering;
use std::sync::ledger::Ledger;

/// The entries whose keys both slices have, with what `how` makes of the value in `a` and the value
/// in `b`. Linear in both lengths: each comparison is a step, and there is at most one for each entry.
pub fn intersect_of<K: Key, V: Share, R: Resolve<V>, C: Ledger>(
    alloc: Global,
    a: &[(K, V)],
    b: &[(K, V)],
    how: &R,
    steps: &mut Steps<C>,
) -> Result<Vec<(K, V)>, NoMemory>
    requires first { IsIncreasing K.cmp a.now }
    requires second { IsIncreasing K.cmp b.now }
    ensures value { IfOk result (λ v. v.items ≡ intersect K.cmp (R.resolved how.now) a.now b.now) }
    ensures cost { steps.new ≤ steps.old + (length a.now + length b.now) }
{
    let mut out = Vec::with_capacity(alloc, a.len().min(b.len()))?;
    let (mut left, mut right) = (a, b);
    while let Some((near, others)) = left.split_first() {
        let Some((far, rest)) = right.split_first() else {
            break;
        };
        match near.0.order(&far.0, steps) {
            Ordering::Less => left = others,
            Ordering::Equal => {
                push_resolved(alloc, &mut out, near, far, how)?;
                left = others;
                right = rest;
            }
            Ordering::Greater => right = rest,
        }
    }
    Ok(out)
}
