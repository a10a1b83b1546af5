//! What a node needs to be changed in place.
ghost use Rattle.std.specs.Prelude.{◌≡◌, ℕ, ◌+◌, ◌^◌, ◌<◌, ◌≤◌, IsTrue, length, max};
ghost use Rattle.map_model.specs.Balance.{FillsNode, HeightLaw, IsBalanced, weight};
ghost use Rattle.aug_monoid.specs.Commuting.{IsCommutativeOver};
ghost use Rattle.tree_change.specs.Growths.{IsAsHigh, IsLarger};
ghost use Rattle.tree_change.specs.Refreshed.{IsRefreshed, NodeTakesIn};
ghost use Rattle.tree_change.specs.Room.{CanSpare, HasRoom};
ghost use Rattle.tree_change.specs.Ways.{IsWayOfDel, IsWayOfPut};

use aug_monoid::{Augment, Key, Steps};
use balance::balanced;
use std::alloc::Global;
use std::cmp::Ordering;
use std::mem::replace;
use std::sync::ledger::Ledger;
use tree_shape::{MOST_ENTRIES, Node, Shape, Tree};

/// A map in a struct of its own, as the recursions that change one take it.
#[derive(Drop)]
pub(crate) struct PartMut<'a, M: Shape> {
    pub(crate) tree: &'a mut Tree<M>,
}

/// What a put did to the extent of a map. It has no fields, so that it goes from level to level in a register.
#[derive(Clone, Copy)]
pub(crate) enum Growth {
    /// There is no entry more.
    Same,
    /// There is an entry more, in a tree as high.
    Entry,
    /// There is an entry more, in a tree that may be higher.
    Level,
}

impl Growth {
    /// What a put in place does to a block.
    pub(crate) fn in_block(is_new: bool) -> Growth
        ensures { IsLarger result → IsTrue is_new }
    {
        if is_new { Growth::Entry } else { Growth::Same }
    }
}

/// Where a change in place goes from a node on.
#[derive(Clone, Copy)]
pub(crate) enum Way {
    /// Down to the left side.
    Left,
    /// To the entry of the node.
    Here,
    /// Down to the right side.
    Right,
    /// To a copy, as the node could not stay one or has no room.
    Copy,
}

/// Whether a node of so many entries stays one with an entry more on the near side, or as many.
fn has_room<M: Shape>(near: &Tree<M>, node_size: u64) -> bool
    requires inside { length near.now.entries < node_size }
    requires fits { node_size < 2 ^ 60 }
    ensures { IsTrue result → (far : ℕ) → length near.now.entries + far + 1 ≡ node_size → HasRoom M.BLOCK (length near.now.entries) far }
{
    let near_size = near.size();
    let block = near.block_size();
    if node_size + 1 >= MOST_ENTRIES {
        return false;
    }
    if node_size < 4 * block && near_size >= 2 * block {
        return false;
    }
    balanced(near_size + 2, node_size - near_size)
}

/// Whether a node over two sides stays one with an entry less on the near side, or as many.
fn can_spare<M: Shape>(near: &Tree<M>, far: &Tree<M>) -> bool
    ensures { IsTrue result → CanSpare M.BLOCK (length near.now.entries) (length far.now.entries) }
{
    let (near_size, far_size) = (near.size(), far.size());
    let block = near.block_size();
    if near_size == 0 || near_size + far_size == 4 * block {
        return false;
    }
    if near_size + far_size < 4 * block && near_size <= block {
        return false;
    }
    balanced(near_size, far_size + 1)
}

/// Where a put goes from a node on. One step.
pub(crate) fn way_of_put<M: Shape, C: Ledger>(
    node: &Node<M>,
    key: &M::Key,
    steps: &mut Steps<C>,
) -> Way
    requires size { node.now.size ≡ length node.now.left.entries + length node.now.right.entries + 1 }
    requires fits { node.now.size < 2 ^ 60 }
    ensures way { IsWayOfPut M.Key.cmp M.BLOCK key.now node.now.left node.now.key node.now.right result }
    ensures one_step { steps.new ≡ steps.old + 1 }
{
    match key.order(&node.key, steps) {
        Ordering::Less if has_room(&node.left, node.size) => Way::Left,
        Ordering::Less => Way::Copy,
        Ordering::Equal => Way::Here,
        Ordering::Greater if has_room(&node.right, node.size) => Way::Right,
        Ordering::Greater => Way::Copy,
    }
}

/// Where the removal of a key goes from a node on. One step.
pub(crate) fn way_of_del<M: Shape, C: Ledger>(
    node: &Node<M>,
    key: &M::Key,
    steps: &mut Steps<C>,
) -> Way
    ensures way { IsWayOfDel M.Key.cmp M.BLOCK key.now node.now.left node.now.key node.now.right result }
    ensures one_step { steps.new ≡ steps.old + 1 }
{
    match key.order(&node.key, steps) {
        Ordering::Less if can_spare(&node.left, &node.right) => Way::Left,
        Ordering::Less => Way::Copy,
        Ordering::Equal => Way::Here,
        Ordering::Greater if can_spare(&node.right, &node.left) => Way::Right,
        Ordering::Greater => Way::Copy,
    }
}

/// The height of a node over its sides as they are.
fn height_over<M: Shape>(node: &Node<M>) -> u32
    requires fits { length node.now.left.entries + length node.now.right.entries + 1 < 2 ^ 60 }
    ensures value { result ≡ max node.now.left.height node.now.right.height + 1 }
    ensures law { IsBalanced (weight node.now.left.entries) (weight node.now.right.entries) → FillsNode M.BLOCK (length node.now.left.entries) (length node.now.right.entries) → HeightLaw M.BLOCK result (length node.now.left.entries + length node.now.right.entries + 1) }
{
    node.left.height().max(node.right.height()) + 1
}

/// Makes the fold, the size and the height of a node anew.
pub(crate) fn refresh<M: Shape, C: Ledger>(alloc: Global, node: &mut Node<M>, steps: &mut Steps<C>)
    requires total { M.Augment.never_refuses }
    requires fits { length node.old.left.entries + length node.old.right.entries + 1 < 2 ^ 60 }
    ensures node { IsRefreshed M.Augment.base_of M.Augment.unit_of M.Augment.combined M.BLOCK node.old.left node.old.key node.old.val node.old.right node.new }
    ensures cost { steps.new ≤ steps.old + 2 }
{
    let Ok(fold) = Tree::fold_between(alloc, &node.left, &node.key, &node.val, &node.right, steps)
    else {
        unreachable!()
    };
    let height = height_over(node);
    node.fold = fold;
    node.size = node.left.size() + node.right.size() + 1;
    node.height = height;
}

/// Sets the value of the entry of a node, and answers the one that it had.
pub(crate) fn put_here<M: Shape, C: Ledger>(
    alloc: Global,
    node: &mut Node<M>,
    val: M::Val,
    steps: &mut Steps<C>,
) -> M::Val
    requires total { M.Augment.never_refuses }
    requires fits { length node.old.left.entries + length node.old.right.entries + 1 < 2 ^ 60 }
    ensures value { result ≡ node.old.val }
    ensures node { IsRefreshed M.Augment.base_of M.Augment.unit_of M.Augment.combined M.BLOCK node.old.left node.old.key val node.old.right node.new }
    ensures cost { steps.new ≤ steps.old + 2 }
{
    let old = replace(&mut node.val, val);
    refresh(alloc, node, steps);
    old
}

/// Takes the base value of a new entry into the fold of a node, and makes its size and height what they are with it.
fn take_in<M: Shape, C: Ledger>(
    alloc: Global,
    node: &mut Node<M>,
    height: u32,
    base: &M::Aug,
    steps: &mut Steps<C>,
)
    requires total { M.Augment.never_refuses }
    requires fits { length node.old.left.entries + length node.old.right.entries + 1 < 2 ^ 60 }
    requires alike { IsCommutativeOver M.Augment.Fits M.Augment.combined }
    requires fold { NodeTakesIn M.Augment.Fits M.Augment.base_of M.Augment.unit_of M.Augment.combined node.old base.now }
    requires size { node.old.size ≡ length node.old.left.entries + length node.old.right.entries }
    requires height { height ≡ max node.old.left.height node.old.right.height + 1 }
    requires law { IsBalanced (weight node.old.left.entries) (weight node.old.right.entries) → FillsNode M.BLOCK (length node.old.left.entries) (length node.old.right.entries) → HeightLaw M.BLOCK height (length node.old.left.entries + length node.old.right.entries + 1) }
    ensures node { IsRefreshed M.Augment.base_of M.Augment.unit_of M.Augment.combined M.BLOCK node.old.left node.old.key node.old.val node.old.right node.new }
    ensures height { node.new.height ≡ height }
    ensures cost { steps.new ≤ steps.old + 2 }
{
    let Ok(grown) = <M::Augment>::combine(alloc, &node.fold, base, steps) else {
        unreachable!()
    };
    node.fold = grown;
    node.size += 1;
    node.height = height;
}

/// Makes the fold, the size and the height of a node anew after a put into one of its sides, and answers what the put did to the
/// node of what it did to the side. Where the side has an entry more, and values combine alike in either order, they are made of
/// what they were, and no side is looked at but where one may be higher.
#[inline(always)]
pub(crate) fn refresh_after_put<M: Shape, C: Ledger>(
    alloc: Global,
    node: &mut Node<M>,
    growth: Growth,
    base: &M::Aug,
    steps: &mut Steps<C>,
) -> Growth
    requires total { M.Augment.never_refuses }
    requires fits { length node.old.left.entries + length node.old.right.entries + 1 < 2 ^ 60 }
    requires fold { IsLarger growth → NodeTakesIn M.Augment.Fits M.Augment.base_of M.Augment.unit_of M.Augment.combined node.old base.now }
    requires size { IsLarger growth → node.old.size ≡ length node.old.left.entries + length node.old.right.entries }
    requires height { IsAsHigh growth → node.old.height ≡ max node.old.left.height node.old.right.height + 1 }
    requires law { HeightLaw M.BLOCK node.old.height (node.old.size + 1) }
    ensures node { IsRefreshed M.Augment.base_of M.Augment.unit_of M.Augment.combined M.BLOCK node.old.left node.old.key node.old.val node.old.right node.new }
    ensures larger { IsLarger result → IsLarger growth }
    ensures as_high { IsAsHigh result → node.new.height ≡ node.old.height }
    ensures cost { steps.new ≤ steps.old + 2 }
{
    if !<M::Augment>::commutes() {
        refresh(alloc, node, steps);
        return growth;
    }
    match growth {
        Growth::Same => refresh(alloc, node, steps),
        Growth::Entry => take_in(alloc, node, node.height, base, steps),
        Growth::Level => {
            let height = height_over(node);
            let is_as_high = height == node.height;
            take_in(alloc, node, height, base, steps);
            if is_as_high {
                return Growth::Entry;
            }
        }
    }
    growth
}
