//! The value at a key.
ghost use Rattle.std.specs.Prelude.{◌≡◌, ◌+◌, ◌≤◌, is_some, length, IfOk, IsOk};
ghost use Rattle.std.specs.Option.{option_copied};
ghost use Rattle.map_model.specs.Entries.{IsIncreasing, lookup};

use aug_monoid::{Key, Leaf, LeafRef, NoMemory, Share, Steps};
use std::alloc::Global;
use std::cmp::Ordering;
use std::sync::ledger::Ledger;
use tree_shape::{Look, Shape, ShapeRef, Tree};

/// The value at a key, if it is there. At most `height + M::Leaf::FIND` steps. It takes no memory where the shares of keys and
/// values take none.
pub fn get<M: Shape, C: Ledger>(
    alloc: Global,
    tree: &Tree<M>,
    key: &M::Key,
    steps: &mut Steps<C>,
) -> Result<Option<M::Val>, NoMemory>
    ensures value { IfOk result (λ val. val ≡ lookup M.Key.cmp tree.now.entries key.now) }
    ensures succeeds { M.Key.never_refuses → M.Val.never_refuses → IsOk result }
    ensures cost { steps.new ≤ steps.old + (tree.now.height + M.Leaf.FIND) }
{
    // A loop, since a recursion would hand the value up again through each level.
    let mut part = tree;
    'down: loop {
        match part.look() {
            Look::Empty => return Ok(None),
            Look::Block { leaf } => return get_in_leaf(alloc, leaf, key, steps),
            Look::Node {
                left,
                key: node_key,
                val: node_val,
                right,
            } => match key.order(node_key, steps) {
                Ordering::Less => part = left,
                Ordering::Equal => return Ok(Some(node_val.share(alloc)?)),
                Ordering::Greater => part = right,
            },
        }
    }
}

fn get_in_leaf<K: Key, V: Share, L: Leaf<K, V>, C: Ledger>(
    alloc: Global,
    leaf: &L,
    key: &K,
    steps: &mut Steps<C>,
) -> Result<Option<V>, NoMemory>
    requires increasing { IsIncreasing K.cmp (L.entries leaf.now) }
    requires short { length (L.entries leaf.now) ≤ 256 }
    ensures value { IfOk result (λ val. val ≡ lookup K.cmp (L.entries leaf.now) key.now) }
    ensures succeeds { K.never_refuses → V.never_refuses → IsOk result }
    ensures cost { steps.new ≤ steps.old + L.FIND }
{
    let place = leaf.seek(key, steps);
    if !place.hit {
        return Ok(None);
    }
    match leaf.get_at(place.at) {
        Some(entry) => Ok(Some(entry.into_val(alloc)?)),
        None => Ok(None),
    }
}

/// Lends the value at a key, if it is there. At most `height + M::Leaf::FIND` steps. It takes no memory.
pub fn get_ref<'a, M: ShapeRef, C: Ledger>(
    tree: &'a Tree<M>,
    key: &M::Key,
    steps: &mut Steps<C>,
) -> Option<&'a M::Val>
    ensures value { option_copied result ≡ lookup M.Key.cmp tree.now.entries key.now }
    ensures cost { steps.new ≤ steps.old + (tree.now.height + M.Leaf.FIND) }
{
    // A loop, as in `get`.
    let mut part = tree;
    'down: loop {
        match part.look() {
            Look::Empty => return None,
            Look::Block { leaf } => return ref_in_leaf(leaf, key, steps),
            Look::Node {
                left,
                key: node_key,
                val: node_val,
                right,
            } => match key.order(node_key, steps) {
                Ordering::Less => part = left,
                Ordering::Equal => return Some(node_val),
                Ordering::Greater => part = right,
            },
        }
    }
}

fn ref_in_leaf<'a, K: Key + 'a, V: Share, L: LeafRef<K, V>, C: Ledger>(
    leaf: &'a L,
    key: &K,
    steps: &mut Steps<C>,
) -> Option<&'a V>
    requires increasing { IsIncreasing K.cmp (L.entries leaf.now) }
    requires short { length (L.entries leaf.now) ≤ 256 }
    ensures value { option_copied result ≡ lookup K.cmp (L.entries leaf.now) key.now }
    ensures cost { steps.new ≤ steps.old + L.FIND }
{
    let place = leaf.seek(key, steps);
    if !place.hit {
        return None;
    }
    match leaf.as_slice().get(place.at as usize) {
        Some(entry) => Some(&entry.1),
        None => None,
    }
}

/// Whether a key is there. At most `height + M::Leaf::FIND` steps. It takes no memory, and shares no value.
pub fn contains_key<M: Shape, C: Ledger>(tree: &Tree<M>, key: &M::Key, steps: &mut Steps<C>) -> bool
    ensures value { result ≡ is_some (lookup M.Key.cmp tree.now.entries key.now) }
    ensures cost { steps.new ≤ steps.old + (tree.now.height + M.Leaf.FIND) }
{
    // A loop, as in `get`.
    let mut part = tree;
    'down: loop {
        match part.look() {
            Look::Empty => return false,
            Look::Block { leaf } => return is_in_leaf(leaf, key, steps),
            Look::Node {
                left,
                key: node_key,
                right,
                ..
            } => match key.order(node_key, steps) {
                Ordering::Less => part = left,
                Ordering::Equal => return true,
                Ordering::Greater => part = right,
            },
        }
    }
}

fn is_in_leaf<K: Key, V: Share, L: Leaf<K, V>, C: Ledger>(
    leaf: &L,
    key: &K,
    steps: &mut Steps<C>,
) -> bool
    requires { length (L.entries leaf.now) ≤ 256 }
    ensures value { result ≡ is_some (lookup K.cmp (L.entries leaf.now) key.now) }
    ensures cost { steps.new ≤ steps.old + L.FIND }
{
    leaf.seek(key, steps).hit
}
