//! Items in slices.
ghost use Rattle.std.specs.Prelude.{◌≡◌, ◌+◌, ◌≤◌, ◌++◌, IfOk, length};
ghost use Rattle.seq_core.specs.Sums.{sum_of};
ghost use Rattle.aug_monoid.specs.Fresh.{IsFresh};

use crate::fold::{Fold, SureFold};
use aug_monoid::{NoMemory, Share, Steps};
use std::alloc::Global;
use std::marker::Brand;
use std::sync::ledger::{Blank, Ledger};

/// Another owner of a value whose shares never refuse.
fn another<T: Share>(alloc: Global, value: &T) -> T
    requires { T.never_refuses }
    ensures { result ≡ value.now }
{
    match value.share(alloc) {
        Ok(copy) => copy,
        Err(_) => unreachable!(),
    }
}

/// Another owner of an item. It takes no memory. O(1).
pub fn share_item<F: SureFold>(alloc: Global, item: &F::Item) -> F::Item
    ensures { result ≡ item.now }
{
    another(alloc, item)
}

/// Another owner of a sum. It takes no memory.
pub(crate) fn share_sum<F: Fold>(alloc: Global, sum: &F::Sum) -> F::Sum
    ensures { result ≡ sum.now }
{
    another(alloc, sum)
}

/// Appends items. O(n) for n items.
pub fn push_items<F: Fold>(
    alloc: Global,
    from: &[F::Item],
    out: &mut Vec<F::Item>,
) -> Result<(), NoMemory>
    ensures { IfOk result (λ _. out.new.items ≡ out.old.items ++ from.now) }
{
    for item in from {
        out.push(item.share(alloc)?)?;
    }
    Ok(())
}

/// The items in a vector of just their number. O(n) for n items.
pub fn copy_items<F: Fold>(alloc: Global, from: &[F::Item]) -> Result<Vec<F::Item>, NoMemory>
    ensures { IfOk result (λ copy. copy.items ≡ from.now) }
{
    let mut copy = Vec::with_capacity(alloc, from.len())?;
    push_items::<F>(alloc, from, &mut copy)?;
    Ok(copy)
}

/// The sum of items, in as many steps.
pub fn sum_items<F: Fold, C: Ledger>(items: &[F::Item], steps: &mut Steps<C>) -> F::Sum
    ensures value { result ≡ sum_of F.image_of F.unit_of F.combined items.now }
    ensures cost { steps.new ≤ steps.old + length items.now }
{
    let mut sum = F::unit();
    for item in items {
        sum = F::combine(&sum, &F::of(item), steps);
    }
    sum
}

/// The sum of items, with a counter of its own.
fn sum_counted<F: Fold, C: Ledger>(items: &[F::Item], blank: Blank) -> F::Sum
    requires { IsFresh C.name C.parts blank }
    ensures { result ≡ sum_of F.image_of F.unit_of F.combined items.now }
{
    let mut steps = Steps::<C>::start(blank);
    sum_items::<F, C>(items, &mut steps)
}

/// The sum of items, of which nobody counts the steps.
pub(crate) fn sum_uncounted<F: Fold>(items: &[F::Item]) -> F::Sum
    ensures { result ≡ sum_of F.image_of F.unit_of F.combined items.now }
{
    sum_counted::<F, Brand>(items, Blank::new(1))
}

/// The sums of two lists combined with an item between them, with a counter of its own.
fn around_counted<F: Fold, C: Ledger>(
    left: &F::Sum,
    item: &F::Item,
    right: &F::Sum,
    blank: Blank,
) -> F::Sum
    requires { IsFresh C.name C.parts blank }
    ensures { result ≡ F.combined (F.combined left.now (F.image_of item.now)) right.now }
{
    let mut steps = Steps::<C>::start(blank);
    let front = F::combine(left, &F::of(item), &mut steps);
    F::combine(&front, right, &mut steps)
}

/// The sums of two lists combined with an item between them, of which nobody counts the steps.
pub(crate) fn sum_around<F: Fold>(left: &F::Sum, item: &F::Item, right: &F::Sum) -> F::Sum
    ensures { result ≡ F.combined (F.combined left.now (F.image_of item.now)) right.now }
{
    around_counted::<F, Brand>(left, item, right, Blank::new(1))
}

/// The sums of two lists combined, with a counter of its own.
fn both_counted<F: Fold, C: Ledger>(front: &F::Sum, back: &F::Sum, blank: Blank) -> F::Sum
    requires { IsFresh C.name C.parts blank }
    ensures { result ≡ F.combined front.now back.now }
{
    let mut steps = Steps::<C>::start(blank);
    F::combine(front, back, &mut steps)
}

/// The sums of two lists combined, of which nobody counts the steps.
pub(crate) fn sum_both<F: Fold>(front: &F::Sum, back: &F::Sum) -> F::Sum
    ensures { result ≡ F.combined front.now back.now }
{
    both_counted::<F, Brand>(front, back, Blank::new(1))
}
