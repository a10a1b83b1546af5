//! Sorted keys answered in one walk down a tree.
ghost use Rattle.std.specs.Prelude.{◌≡◌, ◌++◌, Some, None, IfOk, map};
ghost use Rattle.std.specs.List.Sorted.{IsSortedByKey};
ghost use Rattle.map_model.specs.Entries.{IsIncreasing, lookup};

use crate::answers::Answer;
use crate::cuts::divide_at;
use crate::merged::push_merged;
use crate::one::answer_in_leaf;
use aug_monoid::{Key, Leaf, NoMemory, Share, Steps};
use std::alloc::Global;
use std::sync::ledger::Ledger;
use tree_join::Part;
use tree_shape::{Look, Shape};

/// Appends to answers those for keys at which nothing stands.
pub(crate) fn push_missing<K: Key, V, W: Answer<V>>(
    keys: &[(K, usize)],
    outs: &mut Vec<(usize, W::Out)>,
) -> Result<(), NoMemory>
    ensures { IfOk result (λ _. outs.new.items ≡ outs.old.items ++ map (λ e. (e.1, W.answer None)) keys.now) }
{
    for (_key, place) in keys {
        outs.push((*place, W::missing()))?;
    }
    Ok(())
}

/// Appends to answers those for keys that are a node's own.
fn push_found<K: Key, V, W: Answer<V>>(
    alloc: Global,
    val: &V,
    keys: &[(K, usize)],
    outs: &mut Vec<(usize, W::Out)>,
) -> Result<(), NoMemory>
    ensures { IfOk result (λ _. outs.new.items ≡ outs.old.items ++ map (λ e. (e.1, W.answer (Some val.now))) keys.now) }
{
    for (_key, place) in keys {
        outs.push((*place, W::found(alloc, val)?))?;
    }
    Ok(())
}

/// Appends to answers those for keys of a leaf, each sought by itself.
fn push_each<K: Key, V: Share, L: Leaf<K, V>, W: Answer<V>, C: Ledger>(
    alloc: Global,
    leaf: &L,
    keys: &[(K, usize)],
    outs: &mut Vec<(usize, W::Out)>,
    steps: &mut Steps<C>,
) -> Result<(), NoMemory>
    requires { IsIncreasing K.cmp (L.entries leaf.now) }
    ensures { IfOk result (λ _. outs.new.items ≡ outs.old.items ++ map (λ e. (e.1, W.answer (lookup K.cmp (L.entries leaf.now) e.0))) keys.now) }
{
    for (key, place) in keys {
        let out = answer_in_leaf::<K, V, L, W, C>(alloc, leaf, key, steps)?;
        outs.push((*place, out))?;
    }
    Ok(())
}

/// Appends to answers those for sorted keys of a leaf: sought where there are few of them, else in one walk over both.
fn push_in_block<K: Key, V: Share, L: Leaf<K, V>, W: Answer<V>, C: Ledger>(
    alloc: Global,
    leaf: &L,
    keys: &[(K, usize)],
    outs: &mut Vec<(usize, W::Out)>,
    steps: &mut Steps<C>,
) -> Result<(), NoMemory>
    requires increasing { IsIncreasing K.cmp (L.entries leaf.now) }
    requires sorted { IsSortedByKey (λ e. e.0) K.cmp keys.now }
    ensures { IfOk result (λ _. outs.new.items ≡ outs.old.items ++ map (λ e. (e.1, W.answer (lookup K.cmp (L.entries leaf.now) e.0))) keys.now) }
{
    let sought = (keys.len() as u64).saturating_mul(L::FIND);
    if sought <= leaf.len() {
        push_each::<K, V, L, W, C>(alloc, leaf, keys, outs, steps)
    } else {
        push_merged::<K, V, L, W>(alloc, leaf, keys, outs)
    }
}

/// Appends to answers those for sorted keys of a tree, each with its key's place. The keys are divided at each node by halves, and
/// no node is visited that none of them leads to.
pub(crate) fn push_sorted<M: Shape, W: Answer<M::Val>, C: Ledger>(
    alloc: Global,
    part: Part<'_, M>,
    keys: &[(M::Key, usize)],
    outs: &mut Vec<(usize, W::Out)>,
    steps: &mut Steps<C>,
) -> Result<(), NoMemory>
    requires { IsSortedByKey (λ e. e.0) M.Key.cmp keys.now }
    ensures { IfOk result (λ _. outs.new.items ≡ outs.old.items
        ++ map (λ e. (e.1, W.answer (lookup M.Key.cmp part.entry.tree.now.entries e.0))) keys.now) }
{
    if keys.is_empty() {
        return Ok(());
    }
    match part.tree.look() {
        Look::Empty => push_missing::<M::Key, M::Val, W>(keys, outs),
        Look::Block { leaf } => {
            push_in_block::<M::Key, M::Val, M::Leaf, W, C>(alloc, leaf, keys, outs, steps)
        }
        Look::Node {
            left,
            key,
            val,
            right,
        } => {
            let parts = divide_at(keys, key);
            push_sorted::<M, W, C>(alloc, Part { tree: left }, parts.below, outs, steps)?;
            push_found::<M::Key, M::Val, W>(alloc, val, parts.same, outs)?;
            push_sorted::<M, W, C>(alloc, Part { tree: right }, parts.above, outs, steps)
        }
    }
}
