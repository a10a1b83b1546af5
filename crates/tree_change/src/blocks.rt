//! Changes in place of a block that has one owner.
ghost use Rattle.std.specs.Prelude.{◌≡◌, ◌+◌, ◌*◌, ◌<◌, ◌≤◌, ◌↔◌, [], ◌++◌, IfOk, OnErr, IsSome, IsTrue, length, take, drop};
ghost use Rattle.map_model.specs.Entries.{IsIncreasing, below, drop_key, lookup, set};
ghost use Rattle.map_model.specs.Fold.{fold_of};
ghost use Rattle.tree_shape.specs.Shape.{IsBlock};
ghost use Rattle.tree_change.specs.Growths.{IsLarger};
ghost use Rattle.tree_change.specs.Refreshed.{TakesIn};

use crate::nodes::Growth;
use crate::shape_mut::ShapeMut;
use aug_monoid::{Augment, Key, Leaf, LeafMut, NoMemory, Seek, Share, Steps};
use std::alloc::Global;
use std::sync::ledger::Ledger;
use tree_shape::{Block, fold_leaf};

/// Sets a key of a leaf to a value at its place.
fn put_at_place<K: Key, V: Share, L: LeafMut<K, V>>(
    alloc: Global,
    leaf: &mut L,
    place: Seek,
    key: K,
    val: V,
) -> Result<(), NoMemory>
    requires increasing { IsIncreasing K.cmp (L.entries leaf.old) }
    requires short { length (L.entries leaf.old) ≤ 256 }
    requires at { place.at ≡ length (below K.cmp (L.entries leaf.old) key) }
    requires hit { IsTrue place.hit ↔ IsSome (lookup K.cmp (L.entries leaf.old) key) }
    ensures entries { IfOk result (λ _. L.entries leaf.new ≡ set K.cmp (L.entries leaf.old) key val) }
    ensures kept { OnErr result (L.entries leaf.new ≡ L.entries leaf.old) }
{
    if place.hit {
        leaf.set_at(alloc, place.at, key, val)
    } else {
        leaf.insert_at(alloc, place.at, key, val)
    }
}

/// The fold of a leaf after a put: what it was, combined with the base value of the entry where that is new and values combine alike
/// in either order, and else made anew.
fn fold_after_put<A: Augment, L: Leaf<A::Key, A::Val>, C: Ledger>(
    alloc: Global,
    leaf: &L,
    is_new: bool,
    old: &A::Aug,
    base: &A::Aug,
    steps: &mut Steps<C>,
) -> A::Aug
    requires total { A.never_refuses }
    requires some { 0 < length (L.entries leaf.now) }
    requires grown { IsTrue is_new → TakesIn A.Fits A.base_of A.unit_of A.combined old.now base.now (L.entries leaf.now) }
    ensures fold { result ≡ fold_of A.base_of A.unit_of A.combined (L.entries leaf.now) }
    ensures cost { steps.new ≤ steps.old + length (L.entries leaf.now) }
{
    if is_new && A::commutes() {
        let Ok(grown) = A::combine(alloc, old, base, steps) else {
            unreachable!()
        };
        return grown;
    }
    let Ok(fold) = fold_leaf::<A, L, C>(alloc, leaf, steps) else {
        unreachable!()
    };
    fold
}

/// Sets a key of a block to a value at its place, makes the fold of what it was and the entry's base value, or anew, and answers what
/// that did to the map.
pub(crate) fn put_in_own_block<M: ShapeMut, C: Ledger>(
    alloc: Global,
    block: &mut Block<M>,
    place: Seek,
    key: M::Key,
    val: M::Val,
    base: &M::Aug,
    steps: &mut Steps<C>,
) -> Result<Growth, NoMemory>
    requires total { M.Augment.never_refuses }
    requires base { base.now ≡ M.Augment.base_of key val }
    requires folded { block.old.fold ≡ fold_of M.Augment.base_of M.Augment.unit_of M.Augment.combined (M.Leaf.entries block.old.leaf) }
    requires increasing { IsIncreasing M.Key.cmp (M.Leaf.entries block.old.leaf) }
    requires short { length (M.Leaf.entries block.old.leaf) ≤ 256 }
    requires at { place.at ≡ length (below M.Key.cmp (M.Leaf.entries block.old.leaf) key) }
    requires hit { IsTrue place.hit ↔ IsSome (lookup M.Key.cmp (M.Leaf.entries block.old.leaf) key) }
    ensures entries { IfOk result (λ _. M.Leaf.entries block.new.leaf ≡ set M.Key.cmp (M.Leaf.entries block.old.leaf) key val) }
    ensures larger { IfOk result (λ growth. IsLarger growth → length (M.Leaf.entries block.old.leaf) < length (M.Leaf.entries block.new.leaf)) }
    ensures fold { IfOk result (λ _. block.new.fold ≡ fold_of M.Augment.base_of M.Augment.unit_of M.Augment.combined (M.Leaf.entries block.new.leaf)) }
    ensures kept { OnErr result (M.Leaf.entries block.new.leaf ≡ M.Leaf.entries block.old.leaf) }
    ensures kept_fold { OnErr result (block.new.fold ≡ block.old.fold) }
    ensures cost { steps.new ≤ steps.old + (length (M.Leaf.entries block.old.leaf) + 1) }
{
    put_at_place(alloc, &mut block.leaf, place, key, val)?;
    block.fold = fold_after_put::<M::Augment, M::Leaf, C>(
        alloc,
        &block.leaf,
        !place.hit,
        &block.fold,
        base,
        steps,
    );
    Ok(Growth::in_block(!place.hit))
}

/// Removes the entry at a place from a block, and makes the fold anew.
fn remove_in_own_block<M: ShapeMut, C: Ledger>(
    alloc: Global,
    block: &mut Block<M>,
    at: u64,
    steps: &mut Steps<C>,
) -> Result<(), NoMemory>
    requires total { M.Augment.never_refuses }
    requires inside { at < length (M.Leaf.entries block.old.leaf) }
    ensures entries { IfOk result (λ _. M.Leaf.entries block.new.leaf ≡ take at (M.Leaf.entries block.old.leaf) ++ drop (at + 1) (M.Leaf.entries block.old.leaf)) }
    ensures fold { IfOk result (λ _. block.new.fold ≡ fold_of M.Augment.base_of M.Augment.unit_of M.Augment.combined (M.Leaf.entries block.new.leaf)) }
    ensures kept { OnErr result (M.Leaf.entries block.new.leaf ≡ M.Leaf.entries block.old.leaf) }
    ensures kept_fold { OnErr result (block.new.fold ≡ block.old.fold) }
    ensures cost { steps.new ≤ steps.old + length (M.Leaf.entries block.old.leaf) }
{
    block.leaf.remove_at(alloc, at)?;
    let Ok(fold) = fold_leaf::<M::Augment, M::Leaf, C>(alloc, &block.leaf, steps) else {
        unreachable!()
    };
    block.fold = fold;
    Ok(())
}

/// Removes a key from a block, which need not have it, and answers whether it is the block's only one: then the block is as it was.
pub(crate) fn del_in_own_block<M: ShapeMut, C: Ledger>(
    alloc: Global,
    block: &mut Block<M>,
    key: &M::Key,
    steps: &mut Steps<C>,
) -> Result<bool, NoMemory>
    requires total { M.Augment.never_refuses }
    requires lawful { IsBlock M.Key.cmp M.Augment.base_of M.Augment.unit_of M.Augment.combined M.BLOCK (M.Leaf.entries block.old.leaf) block.old.fold }
    ensures lawful { IsBlock M.Key.cmp M.Augment.base_of M.Augment.unit_of M.Augment.combined M.BLOCK (M.Leaf.entries block.new.leaf) block.new.fold }
    ensures entries { IfOk result (λ is_only. (¬ (IsTrue is_only)) → M.Leaf.entries block.new.leaf ≡ drop_key M.Key.cmp (M.Leaf.entries block.old.leaf) key.now) }
    ensures only { IfOk result (λ is_only. IsTrue is_only → drop_key M.Key.cmp (M.Leaf.entries block.old.leaf) key.now ≡ []) }
    ensures kept { OnErr result (M.Leaf.entries block.new.leaf ≡ M.Leaf.entries block.old.leaf) }
    ensures cost { steps.new ≤ steps.old + (2 * M.BLOCK + M.Leaf.FIND) }
{
    let place = block.leaf.seek(key, steps);
    if !place.hit {
        return Ok(false);
    }
    if block.leaf.len() == 1 {
        return Ok(true);
    }
    remove_in_own_block(alloc, block, place.at, steps)?;
    Ok(false)
}
