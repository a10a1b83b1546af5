//! The two sides of a node, by which of them is meant.
ghost use Rattle.std.specs.Prelude.{◌≡◌, ◌+◌, ◌*◌, ◌<◌, ◌≤◌, ◌↔◌, IfOk, IsTrue, length};
ghost use Rattle.balance.specs.Turns.{IsWeight};
ghost use Rattle.map_model.specs.Balance.{IsBalanced, weight};
ghost use Rattle.seq_core.specs.Sides.{beside};

use crate::fold::Fold;
use crate::look::Look;
use crate::tree::SeqTree;
use crate::width::BlockSize;
use aug_monoid::NoMemory;
use std::alloc::Global;

/// A side of a node.
#[derive(Clone, Copy, Debug)]
pub(crate) enum Side {
    Left,
    Right,
}

/// What a node stands over: the sequence on a given side, the one on the other side, and the item between them.
#[derive(Drop)]
pub(crate) struct Sides<'a, F: Fold, S: BlockSize> {
    pub(crate) far: &'a SeqTree<F, S>,
    pub(crate) item: &'a F::Item,
    pub(crate) near: &'a SeqTree<F, S>,
}

/// The number of items plus 1.
pub(crate) fn weight_of<F: Fold, S: BlockSize>(tree: &SeqTree<F, S>) -> u64
    ensures value { result ≡ weight tree.now.items }
    ensures lawful { IsWeight result }
{
    tree.size() + 1
}

/// Whether two sequences and an item are few enough items for two blocks.
pub(crate) fn are_small<F: Fold, S: BlockSize>(left: &SeqTree<F, S>, right: &SeqTree<F, S>) -> bool
    ensures { IsTrue result ↔ (length left.now.items + length right.now.items + 1 ≤ 4 * S.SIZE) }
{
    left.size() + right.size() < 4 * left.block_size()
}

/// What a node stands over, seen from a side.
pub(crate) fn sides_of<'a, F: Fold, S: BlockSize>(
    tree: &'a SeqTree<F, S>,
    side: Side,
) -> Sides<'a, F, S>
    requires { 2 * S.SIZE < length tree.now.items }
    ensures items { tree.now.items ≡ beside side result.far.now.items result.item.now result.near.now.items }
    ensures balanced { IsBalanced (weight result.far.now.items) (weight result.near.now.items) }
{
    let Look::Node {
        left,
        item,
        right,
        ..
    } = tree.look()
    else {
        unreachable!()
    };
    match side {
        Side::Left => Sides {
            far: right,
            item,
            near: left,
        },
        Side::Right => Sides {
            far: left,
            item,
            near: right,
        },
    }
}

/// The sequence of two sequences, one of them on a given side, with an item between them.
pub(crate) fn link_beside<F: Fold, S: BlockSize>(
    alloc: Global,
    side: Side,
    far: &SeqTree<F, S>,
    item: F::Item,
    near: &SeqTree<F, S>,
) -> Result<SeqTree<F, S>, NoMemory>
    requires { 4 * S.SIZE < length far.now.items + length near.now.items + 1 → IsBalanced (weight far.now.items) (weight near.now.items) }
    ensures { IfOk result (λ tree. tree.items ≡ beside side far.now.items item near.now.items) }
{
    match side {
        Side::Left => SeqTree::link(alloc, near, item, far),
        Side::Right => SeqTree::link(alloc, far, item, near),
    }
}
