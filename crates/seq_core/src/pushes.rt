//! An item behind the last, in place.
ghost use Rattle.std.specs.Prelude.{◌≡◌, [], ◌∷◌, ◌++◌, IfOk, OnErr};

use crate::changes::{PartMut, has_room, take_in};
use crate::fold::Fold;
use crate::items::sum_both;
use crate::joins::join;
use crate::tree::{SeqTree, Top};
use crate::width::BlockSize;
use aug_monoid::NoMemory;
use std::alloc::Global;
use std::sync::Arc;

/// Puts an item behind the last: in place in each node and block that has one owner and room, and from the first one on that has
/// not in a copy of one path and one block. After a refusal the sequence is as it was. Where each node and block has one owner, its
/// time is logarithmic, amortized.
pub fn push_mut<F: Fold, S: BlockSize>(
    alloc: Global,
    tree: &mut SeqTree<F, S>,
    item: F::Item,
) -> Result<(), NoMemory>
    ensures items { IfOk result (λ _. tree.new.items ≡ tree.old.items ++ item ∷ []) }
    ensures kept { OnErr result (tree.new ≡ tree.old) }
{
    let image = F::of(&item);
    push_in(alloc, PartMut { tree }, item, &image)
}

/// Whether a node has room is asked before the way down, and nothing but its end takes memory, so nothing has changed where that is
/// refused. `image` is the sum of the item, which each level up takes in.
fn push_in<F: Fold, S: BlockSize>(
    alloc: Global,
    part: PartMut<'_, F, S>,
    item: F::Item,
    image: &F::Sum,
) -> Result<(), NoMemory>
    requires { image.now ≡ F.image_of item }
    ensures items { IfOk result (λ _. part.exit.0.now.items ≡ part.entry.tree.now.items ++ item ∷ []) }
    ensures kept { OnErr result (part.exit.0.now ≡ part.entry.tree.now) }
{
    let PartMut { tree } = part;
    if let Top::Node(owner) = &mut tree.top {
        if let Some(node) = Arc::get_mut(owner) {
            if has_room(node) {
                let right = PartMut {
                    tree: &mut node.right,
                };
                push_in(alloc, right, item, image)?;
                take_in(node, image);
                return Ok(());
            }
        }
    }
    push_at_end(alloc, PartMut { tree }, item, image)
}

/// The end of the way down: in place in a block that has one owner and room, and else in a copy. It is no part of `push_in`, so that
/// a level saves few registers.
#[inline(never)]
fn push_at_end<F: Fold, S: BlockSize>(
    alloc: Global,
    part: PartMut<'_, F, S>,
    item: F::Item,
    image: &F::Sum,
) -> Result<(), NoMemory>
    requires { image.now ≡ F.image_of item }
    ensures items { IfOk result (λ _. part.exit.0.now.items ≡ part.entry.tree.now.items ++ item ∷ []) }
    ensures kept { OnErr result (part.exit.0.now ≡ part.entry.tree.now) }
{
    let PartMut { tree } = part;
    if let Top::Block(owner) = &mut tree.top {
        if let Some(block) = Arc::get_mut(owner) {
            if block.items.len() < 2 * S::SIZE {
                block.items.push(item)?;
                block.sum = sum_both::<F>(&block.sum, image);
                return Ok(());
            }
        }
    }
    *tree = pushed_copy(alloc, tree, item)?;
    Ok(())
}

/// The sequence with an item behind the last, which copies one path and one block. Two blocks are made so that the next pushes find
/// room in the last one.
fn pushed_copy<F: Fold, S: BlockSize>(
    alloc: Global,
    tree: &SeqTree<F, S>,
    item: F::Item,
) -> Result<SeqTree<F, S>, NoMemory>
    ensures { IfOk result (λ copy. copy.items ≡ tree.now.items ++ item ∷ []) }
{
    let size = tree.size();
    let block = tree.block_size();
    let none = SeqTree::new();
    if 2 * block <= size && size < 4 * block {
        let all = SeqTree::gathered(alloc, tree, item, &none)?;
        return SeqTree::full_front(alloc, &all);
    }
    join(alloc, tree, item, &none)
}
