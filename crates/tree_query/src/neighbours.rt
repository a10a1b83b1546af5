//! The entries nearest to a key.
ghost use Rattle.std.specs.Prelude.{◌≡◌, ◌+◌, ◌≤◌, None, IfOk, IsOk, length};
ghost use Rattle.std.specs.List.{last_or};
ghost use Rattle.std.specs.Option.{option_map, option_or};
ghost use Rattle.map_model.specs.Entries.{IsIncreasing};
ghost use Rattle.map_model.specs.Parts.{next, prev};

use crate::places::select;
use aug_monoid::{Key, Leaf, NoMemory, Share, Steps, owned, share_entry};
use std::alloc::Global;
use std::cmp::Ordering;
use std::sync::ledger::Ledger;
use tree_shape::{Look, Shape, Tree};

/// The entry with the least key greater than `key`; none exactly where no key is greater. At most `height + M::Leaf::FIND`
/// steps. It takes no memory where the shares of keys and values take none.
pub fn next<M: Shape, C: Ledger>(
    alloc: Global,
    tree: &Tree<M>,
    key: &M::Key,
    steps: &mut Steps<C>,
) -> Result<Option<(M::Key, M::Val)>, NoMemory>
    ensures value { IfOk result (λ entry. entry ≡ next M.Key.cmp tree.now.entries key.now) }
    ensures succeeds { M.Key.never_refuses → M.Val.never_refuses → IsOk result }
    ensures cost { steps.new ≤ steps.old + (tree.now.height + M.Leaf.FIND) }
{
    // A loop, since a recursion would hand the entry up again through each level.
    let mut part = tree;
    let mut near = None;
    'down: loop {
        match part.look() {
            Look::Empty => return or_near(alloc, None, near),
            Look::Block { leaf } => {
                let found = next_in_block(alloc, leaf, key, steps)?;
                return or_near(alloc, found, near);
            }
            Look::Node {
                left,
                key: middle,
                val,
                right,
            } => match key.order(middle, steps) {
                Ordering::Less => {
                    near = Some((middle, val));
                    part = left;
                }
                Ordering::Equal => {
                    let found = select(alloc, right, 0)?;
                    return or_near(alloc, found, near);
                }
                Ordering::Greater => part = right,
            },
        }
    }
}

/// The entry with the greatest key less than `key`; none exactly where no key is less. At most `height + M::Leaf::FIND` steps.
/// It takes no memory where the shares of keys and values take none.
pub fn prev<M: Shape, C: Ledger>(
    alloc: Global,
    tree: &Tree<M>,
    key: &M::Key,
    steps: &mut Steps<C>,
) -> Result<Option<(M::Key, M::Val)>, NoMemory>
    ensures value { IfOk result (λ entry. entry ≡ prev M.Key.cmp tree.now.entries key.now) }
    ensures succeeds { M.Key.never_refuses → M.Val.never_refuses → IsOk result }
    ensures cost { steps.new ≤ steps.old + (tree.now.height + M.Leaf.FIND) }
{
    // A loop, since a recursion would hand the entry up again through each level.
    let mut part = tree;
    let mut near = None;
    'down: loop {
        match part.look() {
            Look::Empty => return or_near(alloc, None, near),
            Look::Block { leaf } => {
                let found = prev_in_block(alloc, leaf, key, steps)?;
                return or_near(alloc, found, near);
            }
            Look::Node {
                left,
                key: middle,
                val,
                right,
            } => match key.order(middle, steps) {
                Ordering::Less => part = left,
                Ordering::Equal => {
                    let found = last(alloc, left)?;
                    return or_near(alloc, found, near);
                }
                Ordering::Greater => {
                    near = Some((middle, val));
                    part = right;
                }
            },
        }
    }
}

/// The entry that was found, or else the nearest one on the way.
fn or_near<K: Share, V: Share>(
    alloc: Global,
    found: Option<(K, V)>,
    near: Option<(&K, &V)>,
) -> Result<Option<(K, V)>, NoMemory>
    ensures value { IfOk result (λ entry. entry ≡ option_or found (option_map (λ e. (e.0.now, e.1.now)) near.entry)) }
    ensures succeeds { K.never_refuses → V.never_refuses → IsOk result }
{
    match (found, near) {
        (Some(entry), _) => Ok(Some(entry)),
        (None, Some((key, val))) => Ok(Some(share_entry(alloc, key, val)?)),
        (None, None) => Ok(None),
    }
}

fn next_in_block<K: Key, V: Share, L: Leaf<K, V>, C: Ledger>(
    alloc: Global,
    leaf: &L,
    key: &K,
    steps: &mut Steps<C>,
) -> Result<Option<(K, V)>, NoMemory>
    requires increasing { IsIncreasing K.cmp (L.entries leaf.now) }
    requires short { length (L.entries leaf.now) ≤ 256 }
    ensures value { IfOk result (λ entry. entry ≡ next K.cmp (L.entries leaf.now) key.now) }
    ensures succeeds { K.never_refuses → V.never_refuses → IsOk result }
    ensures cost { steps.new ≤ steps.old + L.FIND }
{
    let place = leaf.seek(key, steps);
    if place.hit {
        let _number = leaf.len(); // for the proof alone: the next place fits its type
        owned(alloc, leaf.get_at(place.at + 1))
    } else {
        owned(alloc, leaf.get_at(place.at))
    }
}

fn prev_in_block<K: Key, V: Share, L: Leaf<K, V>, C: Ledger>(
    alloc: Global,
    leaf: &L,
    key: &K,
    steps: &mut Steps<C>,
) -> Result<Option<(K, V)>, NoMemory>
    requires increasing { IsIncreasing K.cmp (L.entries leaf.now) }
    requires short { length (L.entries leaf.now) ≤ 256 }
    ensures value { IfOk result (λ entry. entry ≡ prev K.cmp (L.entries leaf.now) key.now) }
    ensures succeeds { K.never_refuses → V.never_refuses → IsOk result }
    ensures cost { steps.new ≤ steps.old + L.FIND }
{
    let before = leaf.seek(key, steps).at;
    if before == 0 {
        Ok(None)
    } else {
        owned(alloc, leaf.get_at(before - 1))
    }
}

/// The entry with the greatest key.
fn last<M: Shape>(alloc: Global, tree: &Tree<M>) -> Result<Option<(M::Key, M::Val)>, NoMemory>
    ensures value { IfOk result (λ entry. entry ≡ last_or None tree.now.entries) }
    ensures succeeds { M.Key.never_refuses → M.Val.never_refuses → IsOk result }
{
    let size = tree.size();
    if size == 0 {
        Ok(None)
    } else {
        select(alloc, tree, size - 1)
    }
}
