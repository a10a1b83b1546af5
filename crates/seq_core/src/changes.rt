//! What a node with one owner needs to be changed in place.
ghost use Rattle.std.specs.Prelude.{◌≡◌, ◌+◌, ◌^◌, ◌<◌, ◌∷◌, ◌++◌, IsTrue, length, max};
ghost use Rattle.map_model.specs.Balance.{FillsNode, HeightLaw, IsBalanced, IsBlockSize, weight};
ghost use Rattle.seq_core.specs.Refreshed.{IsRefreshed};
ghost use Rattle.seq_core.specs.Room.{HasRoom};
ghost use Rattle.seq_core.specs.Sums.{sum_of};

use crate::build::MOST_ITEMS;
use crate::fold::Fold;
use crate::items::{sum_around, sum_both};
use crate::tree::{Node, SeqTree};
use crate::width::BlockSize;
use balance::balanced;
use std::alloc::Global;

/// A sequence in a struct of its own, as the recursions that change one take it. It is there for the proof alone.
#[derive(Drop)]
pub(crate) struct PartMut<'a, F: Fold, S: BlockSize> {
    pub(crate) tree: &'a mut SeqTree<F, S>,
}

/// Whether a node stays one with an item more on its right side.
pub(crate) fn has_room<F: Fold, S: BlockSize>(node: &Node<F, S>) -> bool
    requires block_size { IsBlockSize S.SIZE }
    requires before { node.now.before ≡ length node.now.left.items }
    requires size { node.now.size ≡ length node.now.left.items + length node.now.right.items + 1 }
    requires fits { node.now.size < 2 ^ 60 }
    ensures { IsTrue result → HasRoom S.SIZE (length node.now.left.items) (length node.now.right.items) }
{
    let behind = node.size - node.before - 1;
    let block = S::SIZE as u64;
    if node.size + 1 >= MOST_ITEMS {
        return false;
    }
    if node.size < 4 * block && behind >= 2 * block {
        return false;
    }
    balanced(node.before + 1, behind + 2)
}

/// The height of a node over its sides as they are.
fn height_over<F: Fold, S: BlockSize>(node: &Node<F, S>) -> u32
    requires block_size { IsBlockSize S.SIZE }
    requires fits { length node.now.left.items + length node.now.right.items + 1 < 2 ^ 60 }
    ensures value { result ≡ max node.now.left.height node.now.right.height + 1 }
    ensures law { IsBalanced (weight node.now.left.items) (weight node.now.right.items) → FillsNode S.SIZE (length node.now.left.items) (length node.now.right.items) → HeightLaw S.SIZE result (length node.now.left.items + length node.now.right.items + 1) }
{
    node.left.height().max(node.right.height()) + 1
}

/// Makes what a node stores about its sides and its item anew.
pub(crate) fn refresh<F: Fold, S: BlockSize>(alloc: Global, node: &mut Node<F, S>)
    requires block_size { IsBlockSize S.SIZE }
    requires fits { length node.old.left.items + length node.old.right.items + 1 < 2 ^ 60 }
    ensures { IsRefreshed F.image_of F.unit_of F.combined S.SIZE node.old.left node.old.item node.old.right node.new }
{
    let before = node.left.size();
    let size = before + node.right.size() + 1;
    let height = height_over(node);
    let sum = sum_around::<F>(&node.left.sum(alloc), &node.item, &node.right.sum(alloc));
    node.before = before;
    node.size = size;
    node.height = height;
    node.sum = sum;
}

/// Takes an item that has come behind the others into what a node stores. `image` is the item's sum.
pub(crate) fn take_in<F: Fold, S: BlockSize>(node: &mut Node<F, S>, image: &F::Sum)
    requires block_size { IsBlockSize S.SIZE }
    requires fits { length node.old.left.items + length node.old.right.items + 1 < 2 ^ 60 }
    requires before { node.old.before ≡ length node.old.left.items }
    requires size { node.old.size ≡ length node.old.left.items + length node.old.right.items }
    requires sum { F.combined node.old.sum image.now ≡ sum_of F.image_of F.unit_of F.combined (node.old.left.items ++ node.old.item ∷ node.old.right.items) }
    ensures { IsRefreshed F.image_of F.unit_of F.combined S.SIZE node.old.left node.old.item node.old.right node.new }
{
    let height = height_over(node);
    node.sum = sum_both::<F>(&node.sum, image);
    node.size += 1;
    node.height = height;
}
