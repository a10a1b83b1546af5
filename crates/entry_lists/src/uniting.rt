//! The union of two slices.
ghost use Rattle.std.specs.Prelude.{◌≡◌, ◌+◌, ◌≤◌, [], ◌∷◌, ◌++◌, length, IfOk, OnOk};
ghost use Rattle.map_model.specs.Entries.{IsIncreasing};
ghost use Rattle.map_model.specs.SetOperations.{union};

use crate::pushing::{push_all_shared, push_shared};
use aug_monoid::{Key, NoMemory, Resolve, Share, Steps};
use std::alloc::Global;
use std::cmp::Ordering;
use std::sync::ledger::Ledger;

/// The entries of either slice. At a key of both the value is what `how` makes of the value in `a`
/// and the value in `b`. Linear in both lengths: each comparison is a step, and there is at most one for each entry.
pub fn union_of<K: Key, V: Share, R: Resolve<V>, C: Ledger>(
    alloc: Global,
    a: &[(K, V)],
    b: &[(K, V)],
    how: &R,
    steps: &mut Steps<C>,
) -> Result<Vec<(K, V)>, NoMemory>
    requires first { IsIncreasing K.cmp a.now }
    requires second { IsIncreasing K.cmp b.now }
    ensures value { IfOk result (λ v. v.items ≡ union K.cmp (R.resolved how.now) a.now b.now) }
    ensures cost { steps.new ≤ steps.old + (length a.now + length b.now) }
{
    let mut out = Vec::with_capacity(alloc, a.len().saturating_add(b.len()))?;
    let (mut left, mut right) = (a, b);
    while let Some((near, others)) = left.split_first() {
        let Some((far, rest)) = right.split_first() else {
            break;
        };
        match near.0.order(&far.0, steps) {
            Ordering::Less => {
                push_shared(alloc, &mut out, near)?;
                left = others;
            }
            Ordering::Equal => {
                push_resolved(alloc, &mut out, near, far, how)?;
                left = others;
                right = rest;
            }
            Ordering::Greater => {
                push_shared(alloc, &mut out, far)?;
                right = rest;
            }
        }
    }
    push_all_shared(alloc, &mut out, left)?;
    push_all_shared(alloc, &mut out, right)?;
    Ok(out)
}

/// Appends the first entry's key with what `how` makes of the two values.
pub(crate) fn push_resolved<K: Share, V: Share, R: Resolve<V>>(
    alloc: Global,
    into: &mut Vec<(K, V)>,
    a: &(K, V),
    b: &(K, V),
    how: &R,
) -> Result<(), NoMemory>
    ensures { OnOk result (into.new.items ≡ into.old.items ++ (a.now.0, R.resolved how.now a.now.1 b.now.1) ∷ []) }
{
    let key = a.0.share(alloc)?;
    let val = how.resolve(alloc, &a.1, &b.1)?;
    into.push((key, val))?;
    Ok(())
}
