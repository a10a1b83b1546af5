//! A key set to a value.
ghost use Rattle.std.specs.Prelude.{◌≡◌, ◌+◌, ◌*◌, ◌<◌, ◌≤◌, ◌↔◌, [], ◌∷◌, IfOk, IsSome, IsTrue, length};
ghost use Rattle.map_model.specs.Entries.{IsIncreasing, below, lookup, set};
ghost use Rattle.aug_monoid.specs.Fresh.{IsFresh};

use crate::leaves::{one_entry, put_in_leaf};
use crate::sides::{with_left_side, with_right_side};
use aug_monoid::{Key, Leaf, NoMemory, Seek, Steps};
use std::alloc::Global;
use std::cmp::Ordering;
use std::marker::Brand;
use std::sync::ledger::{Blank, Ledger};
use tree_join::Part;
use tree_shape::{Look, Shape, Tree};

/// The map of one entry. O(1).
pub fn single<M: Shape>(alloc: Global, key: M::Key, val: M::Val) -> Result<Tree<M>, NoMemory>
    ensures entries { IfOk result (λ tree. tree.entries ≡ (key, val) ∷ []) }
{
    single_counted::<M, Brand>(alloc, key, val, Blank::new(1))
}

// The map of one entry, with a counter of its own.
fn single_counted<M: Shape, C: Ledger>(
    alloc: Global,
    key: M::Key,
    val: M::Val,
    blank: Blank,
) -> Result<Tree<M>, NoMemory>
    requires { IsFresh C.name C.parts blank }
    ensures entries { IfOk result (λ tree. tree.entries ≡ (key, val) ∷ []) }
{
    let mut steps = Steps::<C>::start(blank);
    first_entry(alloc, key, val, &mut steps)
}

/// A tree of one entry.
fn first_entry<M: Shape, C: Ledger>(
    alloc: Global,
    key: M::Key,
    val: M::Val,
    steps: &mut Steps<C>,
) -> Result<Tree<M>, NoMemory>
    ensures entries { IfOk result (λ tree. tree.entries ≡ (key, val) ∷ []) }
    ensures cost { steps.new ≤ steps.old + 2 }
{
    let leaf: M::Leaf = one_entry(alloc, key, val)?;
    Tree::from_leaf(alloc, leaf, steps)
}

/// The map of a leaf's entries with a key set to a value at its place, which was sought there. It takes memory for one or two
/// blocks, and time linear in them.
pub fn put_sought<M: Shape, C: Ledger>(
    alloc: Global,
    leaf: &M::Leaf,
    place: Seek,
    key: M::Key,
    val: M::Val,
    steps: &mut Steps<C>,
) -> Result<Tree<M>, NoMemory>
    requires increasing { IsIncreasing M.Key.cmp (M.Leaf.entries leaf.now) }
    requires short { length (M.Leaf.entries leaf.now) ≤ 2 * M.BLOCK }
    requires at { place.at ≡ length (below M.Key.cmp (M.Leaf.entries leaf.now) key) }
    requires hit { IsTrue place.hit ↔ IsSome (lookup M.Key.cmp (M.Leaf.entries leaf.now) key) }
    ensures entries { IfOk result (λ tree. tree.entries ≡ set M.Key.cmp (M.Leaf.entries leaf.now) key val) }
    ensures cost { steps.new ≤ steps.old + 4 * M.BLOCK }
{
    let leaf = put_in_leaf(alloc, leaf, place, key, val)?;
    Tree::from_leaf(alloc, leaf, steps)
}

/// A small tree of a block's entries with a key set to a value.
fn put_in_block<M: Shape, C: Ledger>(
    alloc: Global,
    leaf: &M::Leaf,
    key: M::Key,
    val: M::Val,
    steps: &mut Steps<C>,
) -> Result<Tree<M>, NoMemory>
    requires increasing { IsIncreasing M.Key.cmp (M.Leaf.entries leaf.now) }
    requires short { length (M.Leaf.entries leaf.now) ≤ 2 * M.BLOCK }
    ensures entries { IfOk result (λ tree. tree.entries ≡ set M.Key.cmp (M.Leaf.entries leaf.now) key val) }
    ensures cost { steps.new ≤ steps.old + (4 * M.BLOCK + M.Leaf.FIND) }
{
    let place = leaf.seek(&key, steps);
    put_sought(alloc, leaf, place, key, val, steps)
}

/// The map with a key set to a value. It copies one path and one block, in less than
/// `64 * (height + 1) * (M::BLOCK + 2) + M::Leaf::FIND` steps, and shares the rest with `tree`.
pub fn put<M: Shape, C: Ledger>(
    alloc: Global,
    tree: &Tree<M>,
    key: M::Key,
    val: M::Val,
    steps: &mut Steps<C>,
) -> Result<Tree<M>, NoMemory>
    ensures entries { IfOk result (λ new. new.entries ≡ set M.Key.cmp tree.now.entries key val) }
    ensures cost { steps.new < steps.old + (64 * (tree.now.height + 1) * (M.BLOCK + 2) + M.Leaf.FIND) }
{
    put_in(alloc, Part { tree }, key, val, steps)
}

fn put_in<M: Shape, C: Ledger>(
    alloc: Global,
    part: Part<'_, M>,
    key: M::Key,
    val: M::Val,
    steps: &mut Steps<C>,
) -> Result<Tree<M>, NoMemory>
    ensures entries { IfOk result (λ new. new.entries ≡ set M.Key.cmp part.entry.tree.now.entries key val) }
    ensures cost { steps.new < steps.old + (64 * (part.entry.tree.now.height + 1) * (M.BLOCK + 2) + M.Leaf.FIND) }
{
    match part.tree.look() {
        Look::Empty => first_entry(alloc, key, val, steps),
        Look::Block { leaf } => put_in_block(alloc, leaf, key, val, steps),
        Look::Node {
            left,
            key: node_key,
            val: node_val,
            right,
        } => match key.order(node_key, steps) {
            Ordering::Less => {
                let left = put_in(alloc, Part { tree: left }, key, val, steps)?;
                with_left_side(alloc, left, node_key, node_val, right, steps)
            }
            Ordering::Equal => Tree::link(alloc, left, key, val, right, steps),
            Ordering::Greater => {
                let right = put_in(alloc, Part { tree: right }, key, val, steps)?;
                with_right_side(alloc, left, node_key, node_val, right, steps)
            }
        },
    }
}
