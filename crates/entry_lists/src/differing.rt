//! The difference of two slices.
ghost use Rattle.std.specs.Prelude.{◌≡◌, ◌+◌, ◌≤◌, length, IfOk};
ghost use Rattle.map_model.specs.Entries.{IsIncreasing};
ghost use Rattle.map_model.specs.SetOperations.{difference};

use crate::pushing::{push_all_shared, push_shared};
use aug_monoid::{Key, NoMemory, Share, Steps};
use std::alloc::Global;
use std::cmp::Ordering;
use std::sync::ledger::Ledger;

/// The entries of `a` whose keys `b` hasn't. Linear in both lengths: each comparison is a step, and there is at most one for each
/// entry.
pub fn difference_of<K: Key, V: Share, C: Ledger>(
    alloc: Global,
    a: &[(K, V)],
    b: &[(K, V)],
    steps: &mut Steps<C>,
) -> Result<Vec<(K, V)>, NoMemory>
    requires first { IsIncreasing K.cmp a.now }
    requires second { IsIncreasing K.cmp b.now }
    ensures value { IfOk result (λ v. v.items ≡ difference K.cmp a.now b.now) }
    ensures cost { steps.new ≤ steps.old + (length a.now + length b.now) }
{
    let mut out = Vec::with_capacity(alloc, a.len())?;
    let (mut left, mut right) = (a, b);
    while let Some((near, others)) = left.split_first() {
        let Some((far, rest)) = right.split_first() else {
            break;
        };
        match near.0.order(&far.0, steps) {
            Ordering::Less => {
                push_shared(alloc, &mut out, near)?;
                left = others;
            }
            Ordering::Equal => {
                left = others;
                right = rest;
            }
            Ordering::Greater => right = rest,
        }
    }
    push_all_shared(alloc, &mut out, left)?;
    Ok(out)
}
