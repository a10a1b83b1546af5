//! Folds of ranges of keys.
ghost use Rattle.std.specs.Prelude.{◌≡◌, ◌+◌, ◌*◌, ◌≤◌, length, IfOk, IsOk};
ghost use Rattle.map_model.specs.Entries.{IsIncreasing};
ghost use Rattle.map_model.specs.Fold.{fold_of, range_fold};
ghost use Rattle.map_model.specs.Parts.{left_of, right_of};
ghost use Rattle.tree_query.specs.Within.{within, fold_cost};

use crate::range::{KeyRange, Span};
use aug_monoid::{Augment, Leaf, NoMemory, Share, Steps};
use std::alloc::Global;
use std::sync::ledger::Ledger;
use tree_shape::{Look, Shape, Tree};

/// The fold of the entries with keys at most `key`, from the stored folds beside one path and at most one block. It takes no
/// memory, and refuses nothing, where the `Augment` never refuses.
pub fn aug_left<M: Shape, C: Ledger>(
    alloc: Global,
    tree: &Tree<M>,
    key: &M::Key,
    steps: &mut Steps<C>,
) -> Result<M::Aug, NoMemory>
    ensures value { IfOk result (λ aug. aug ≡ fold_of M.Augment.base_of M.Augment.unit_of M.Augment.combined (left_of M.Key.cmp tree.now.entries key.now)) }
    ensures succeeds { M.Augment.never_refuses → IsOk result }
    ensures cost { steps.new ≤ steps.old + (8 * tree.now.height + 16 * M.BLOCK) }
{
    let range = KeyRange::AtMost { hi: key };
    fold_span(alloc, Span { tree, range }, steps)
}

/// The fold of the entries with keys at least `key`, from the stored folds beside one path and at most one block. It takes no
/// memory, and refuses nothing, where the `Augment` never refuses.
pub fn aug_right<M: Shape, C: Ledger>(
    alloc: Global,
    tree: &Tree<M>,
    key: &M::Key,
    steps: &mut Steps<C>,
) -> Result<M::Aug, NoMemory>
    ensures value { IfOk result (λ aug. aug ≡ fold_of M.Augment.base_of M.Augment.unit_of M.Augment.combined (right_of M.Key.cmp tree.now.entries key.now)) }
    ensures succeeds { M.Augment.never_refuses → IsOk result }
    ensures cost { steps.new ≤ steps.old + (8 * tree.now.height + 16 * M.BLOCK) }
{
    let range = KeyRange::AtLeast { lo: key };
    fold_span(alloc, Span { tree, range }, steps)
}

/// The fold of the entries with keys from `lo` to `hi`, both included, from the stored folds between two paths and at most two
/// blocks. It takes no memory, and refuses nothing, where the `Augment` never refuses.
pub fn aug_range<M: Shape, C: Ledger>(
    alloc: Global,
    tree: &Tree<M>,
    lo: &M::Key,
    hi: &M::Key,
    steps: &mut Steps<C>,
) -> Result<M::Aug, NoMemory>
    ensures value { IfOk result (λ aug. aug ≡ range_fold M.Key.cmp M.Augment.base_of M.Augment.unit_of M.Augment.combined tree.now.entries lo.now hi.now) }
    ensures succeeds { M.Augment.never_refuses → IsOk result }
    ensures cost { steps.new ≤ steps.old + (8 * tree.now.height + 16 * M.BLOCK) }
{
    let range = KeyRange::Between { lo, hi };
    fold_span(alloc, Span { tree, range }, steps)
}

/// The stored fold of all entries.
fn whole_fold<M: Shape>(alloc: Global, tree: &Tree<M>) -> Result<M::Aug, NoMemory>
    ensures value { IfOk result (λ aug. aug ≡ fold_of M.Augment.base_of M.Augment.unit_of M.Augment.combined tree.now.entries) }
    ensures succeeds { M.Augment.never_refuses → IsOk result }
{
    match tree.aug() {
        Some(fold) => fold.share(alloc),
        None => Ok(<M::Augment>::unit()),
    }
}

/// The fold of the entries of a leaf in a range, in one walk that ends behind the range.
fn fold_block<A: Augment, L: Leaf<A::Key, A::Val>, C: Ledger>(
    alloc: Global,
    leaf: &L,
    range: &KeyRange<'_, A::Key>,
    steps: &mut Steps<C>,
) -> Result<A::Aug, NoMemory>
    requires { IsIncreasing A.Key.cmp (L.entries leaf.now) }
    ensures value { IfOk result (λ aug. aug ≡ fold_of A.base_of A.unit_of A.combined (within A.Key.cmp range.now (L.entries leaf.now))) }
    ensures succeeds { A.never_refuses → IsOk result }
    ensures cost { steps.new ≤ steps.old + 3 * length (L.entries leaf.now) }
{
    let mut fold = A::unit();
    let mut walk = leaf.walk();
    for _at in 0..leaf.len() {
        let Some(entry) = leaf.walk_next(&mut walk) else {
            unreachable!()
        };
        let key = entry.key();
        if range.ends_before(key, steps) {
            return Ok(fold);
        }
        if range.begins_after(key, steps) {
            continue;
        }
        let base = A::base(alloc, key, entry.val())?;
        fold = A::combine(alloc, &fold, &base, steps)?;
    }
    Ok(fold)
}

/// The fold of what stands before an entry, the entry, and what stands after it.
fn fold_around<A: Augment, C: Ledger>(
    alloc: Global,
    before: &A::Aug,
    key: &A::Key,
    val: &A::Val,
    after: &A::Aug,
    steps: &mut Steps<C>,
) -> Result<A::Aug, NoMemory>
    ensures value { IfOk result (λ aug. aug ≡ A.combined (A.combined before.now (A.base_of key.now val.now)) after.now) }
    ensures succeeds { A.never_refuses → IsOk result }
    ensures cost { steps.new ≤ steps.old + 2 }
{
    let middle = A::base(alloc, key, val)?;
    let front = A::combine(alloc, before, &middle, steps)?;
    A::combine(alloc, &front, after, steps)
}

/// The fold of the entries in a range.
fn fold_span<M: Shape, C: Ledger>(
    alloc: Global,
    span: Span<'_, M>,
    steps: &mut Steps<C>,
) -> Result<M::Aug, NoMemory>
    ensures value { IfOk result (λ aug. aug ≡ fold_of M.Augment.base_of M.Augment.unit_of M.Augment.combined (within M.Key.cmp span.entry.range span.entry.tree.now.entries)) }
    ensures succeeds { M.Augment.never_refuses → IsOk result }
    ensures cost { steps.new ≤ steps.old + fold_cost span.entry.range span.entry.tree.now.height M.BLOCK }
{
    let Span { tree, range } = span;
    if range.is_all() {
        return whole_fold(alloc, tree);
    }
    match tree.look() {
        Look::Empty => Ok(<M::Augment>::unit()),
        Look::Block { leaf } => fold_block::<M::Augment, M::Leaf, C>(alloc, leaf, &range, steps),
        Look::Node {
            left,
            key,
            val,
            right,
        } => {
            if range.ends_before(key, steps) {
                return fold_span(alloc, Span { tree: left, range }, steps);
            }
            if range.begins_after(key, steps) {
                return fold_span(alloc, Span { tree: right, range }, steps);
            }
            let low = Span {
                tree: left,
                range: range.left_part(),
            };
            let high = Span {
                tree: right,
                range: range.right_part(),
            };
            let before = fold_span(alloc, low, steps)?;
            let after = fold_span(alloc, high, steps)?;
            fold_around::<M::Augment, C>(alloc, &before, key, val, &after, steps)
        }
    }
}
