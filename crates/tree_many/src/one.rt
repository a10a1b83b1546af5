//! Keys answered one after another.
ghost use Rattle.std.specs.Prelude.{◌≡◌, IfOk, map};
ghost use Rattle.map_model.specs.Entries.{IsIncreasing, lookup};

use crate::answers::Answer;
use aug_monoid::{Key, Leaf, NoMemory, Share, Steps};
use std::alloc::Global;
use std::cmp::Ordering;
use std::sync::ledger::Ledger;
use tree_join::Part;
use tree_shape::{Look, Shape, Tree};

/// The answer for a key of a leaf.
pub(crate) fn answer_in_leaf<K: Key, V: Share, L: Leaf<K, V>, W: Answer<V>, C: Ledger>(
    alloc: Global,
    leaf: &L,
    key: &K,
    steps: &mut Steps<C>,
) -> Result<W::Out, NoMemory>
    requires { IsIncreasing K.cmp (L.entries leaf.now) }
    ensures { IfOk result (λ out. out ≡ W.answer (lookup K.cmp (L.entries leaf.now) key.now)) }
{
    let place = leaf.seek(key, steps);
    if !place.hit {
        return Ok(W::missing());
    }
    match leaf.get_at(place.at) {
        Some(entry) => W::found(alloc, entry.val()),
        None => Ok(W::missing()),
    }
}

/// The answer for a key of a tree.
fn answer_in<M: Shape, W: Answer<M::Val>, C: Ledger>(
    alloc: Global,
    part: Part<'_, M>,
    key: &M::Key,
    steps: &mut Steps<C>,
) -> Result<W::Out, NoMemory>
    ensures { IfOk result (λ out. out ≡ W.answer (lookup M.Key.cmp part.entry.tree.now.entries key.now)) }
{
    match part.tree.look() {
        Look::Empty => Ok(W::missing()),
        Look::Block { leaf } => {
            answer_in_leaf::<M::Key, M::Val, M::Leaf, W, C>(alloc, leaf, key, steps)
        }
        Look::Node {
            left,
            key: middle,
            val,
            right,
        } => match key.order(middle, steps) {
            Ordering::Less => answer_in::<M, W, C>(alloc, Part { tree: left }, key, steps),
            Ordering::Equal => W::found(alloc, val),
            Ordering::Greater => answer_in::<M, W, C>(alloc, Part { tree: right }, key, steps),
        },
    }
}

/// The answers for keys in any order, each looked up by itself.
pub(crate) fn answer_each<M: Shape, W: Answer<M::Val>, C: Ledger>(
    alloc: Global,
    tree: &Tree<M>,
    keys: &[M::Key],
    steps: &mut Steps<C>,
) -> Result<Vec<W::Out>, NoMemory>
    ensures { IfOk result (λ outs. outs.items ≡ map (λ k. W.answer (lookup M.Key.cmp tree.now.entries k)) keys.now) }
{
    let mut outs = Vec::with_capacity(alloc, keys.len())?;
    for key in keys {
        outs.push(answer_in::<M, W, C>(alloc, Part { tree }, key, steps)?)?;
    }
    Ok(outs)
}
