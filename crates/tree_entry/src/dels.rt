//! A map without a key.
ghost use Rattle.std.specs.Prelude.{◌≡◌, ◌+◌, ◌*◌, ◌<◌, ◌≤◌, IfOk, length};
ghost use Rattle.map_model.specs.Entries.{IsIncreasing, drop_key};

use crate::sides::{with_left_side, with_right_side};
use aug_monoid::{Key, Leaf, NoMemory, Steps};
use std::alloc::Global;
use std::cmp::Ordering;
use std::sync::ledger::Ledger;
use tree_join::{Part, another_owner, join2};
use tree_shape::{Look, Shape, Tree};

/// A map of one block without a key.
fn del_in_block<M: Shape, C: Ledger>(
    alloc: Global,
    tree: &Tree<M>,
    leaf: &M::Leaf,
    key: &M::Key,
    steps: &mut Steps<C>,
) -> Result<Tree<M>, NoMemory>
    requires same { tree.now.entries ≡ M.Leaf.entries leaf.now }
    requires increasing { IsIncreasing M.Key.cmp (M.Leaf.entries leaf.now) }
    requires short { length (M.Leaf.entries leaf.now) ≤ 2 * M.BLOCK }
    ensures entries { IfOk result (λ new. new.entries ≡ drop_key M.Key.cmp (M.Leaf.entries leaf.now) key.now) }
    ensures cost { steps.new ≤ steps.old + (4 * M.BLOCK + M.Leaf.FIND) }
{
    let place = leaf.seek(key, steps);
    if !place.hit {
        return another_owner(alloc, tree);
    }
    let rest = leaf.without(alloc, place.at)?;
    Tree::from_leaf(alloc, rest, steps)
}

/// The map without a key, which it need not have. It copies one path and one block, in less than
/// `64 * (height + 1) * (M::BLOCK + 2) + M::Leaf::FIND` steps, and shares the rest with `tree`.
pub fn del<M: Shape, C: Ledger>(
    alloc: Global,
    tree: &Tree<M>,
    key: &M::Key,
    steps: &mut Steps<C>,
) -> Result<Tree<M>, NoMemory>
    ensures entries { IfOk result (λ new. new.entries ≡ drop_key M.Key.cmp tree.now.entries key.now) }
    ensures cost { steps.new < steps.old + (64 * (tree.now.height + 1) * (M.BLOCK + 2) + M.Leaf.FIND) }
{
    del_in(alloc, Part { tree }, key, steps)
}

fn del_in<M: Shape, C: Ledger>(
    alloc: Global,
    part: Part<'_, M>,
    key: &M::Key,
    steps: &mut Steps<C>,
) -> Result<Tree<M>, NoMemory>
    ensures entries { IfOk result (λ new. new.entries ≡ drop_key M.Key.cmp part.entry.tree.now.entries key.now) }
    ensures cost { steps.new < steps.old + (64 * (part.entry.tree.now.height + 1) * (M.BLOCK + 2) + M.Leaf.FIND) }
{
    match part.tree.look() {
        Look::Empty => another_owner(alloc, part.tree),
        Look::Block { leaf } => del_in_block(alloc, part.tree, leaf, key, steps),
        Look::Node {
            left,
            key: node_key,
            val: node_val,
            right,
        } => match key.order(node_key, steps) {
            Ordering::Less => {
                let left = del_in(alloc, Part { tree: left }, key, steps)?;
                with_left_side(alloc, left, node_key, node_val, right, steps)
            }
            Ordering::Equal => join2(alloc, left, right, steps),
            Ordering::Greater => {
                let right = del_in(alloc, Part { tree: right }, key, steps)?;
                with_right_side(alloc, left, node_key, node_val, right, steps)
            }
        },
    }
}
