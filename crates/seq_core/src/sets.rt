//! Another item at a place, in a copy and in place.
ghost use Rattle.std.specs.Prelude.{◌≡◌, ◌*◌, ◌<◌, ◌≤◌, IfOk, OnErr, length, slice_set};
ghost use Rattle.map_model.specs.Balance.{IsBlockSize};

use crate::changes::{PartMut, refresh};
use crate::fold::Fold;
use crate::items::{copy_items, sum_uncounted};
use crate::joins::join;
use crate::look::Look;
use crate::tree::{Part, SeqTree, Top};
use crate::width::BlockSize;
use aug_monoid::{NoMemory, Share};
use std::alloc::Global;
use std::sync::Arc;

/// A block with another item at a place.
fn set_in_block<F: Fold, S: BlockSize>(
    alloc: Global,
    items: &[F::Item],
    place: u64,
    item: F::Item,
) -> Result<SeqTree<F, S>, NoMemory>
    requires block_size { IsBlockSize S.SIZE }
    requires short { length items.now ≤ 2 * S.SIZE }
    requires within { place < length items.now }
    ensures { IfOk result (λ tree. tree.items ≡ slice_set items.now place item) }
{
    let mut copy = copy_items::<F>(alloc, items)?;
    copy[place as usize] = item;
    SeqTree::from_few(alloc, copy)
}

/// The sequence with another item at a place, which copies one path and one block. Its time is linear in the height and the size
/// of a block.
pub fn set_at<F: Fold, S: BlockSize>(
    alloc: Global,
    part: Part<'_, F, S>,
    place: u64,
    item: F::Item,
) -> Result<SeqTree<F, S>, NoMemory>
    requires { place < length part.tree.now.items }
    ensures { IfOk result (λ tree. tree.items ≡ slice_set part.entry.tree.now.items place item) }
{
    match part.tree.look() {
        Look::Empty => unreachable!(),
        Look::Block { items } => set_in_block(alloc, items, place, item),
        Look::Node {
            before,
            left,
            item: middle,
            right,
        } => {
            if place == before {
                return join(alloc, left, item, right);
            }
            let middle = middle.share(alloc)?;
            if place < before {
                let left = set_at(alloc, Part { tree: left }, place, item)?;
                join(alloc, &left, middle, right)
            } else {
                let right = set_at(alloc, Part { tree: right }, place - before - 1, item)?;
                join(alloc, left, middle, &right)
            }
        }
    }
}

/// Sets the item at a place: in place in each node and block that has one owner, and from the first one on that has not as `set_at`
/// does. After a refusal the sequence is as it was. Its time is linear in the height and the size of a block.
pub fn set_mut<F: Fold, S: BlockSize>(
    alloc: Global,
    tree: &mut SeqTree<F, S>,
    place: u64,
    item: F::Item,
) -> Result<(), NoMemory>
    requires { place < length tree.old.items }
    ensures items { IfOk result (λ _. tree.new.items ≡ slice_set tree.old.items place item) }
    ensures kept { OnErr result (tree.new ≡ tree.old) }
{
    set_in(alloc, PartMut { tree }, place, item)
}

/// Nothing but the end of the way down takes memory, so nothing has changed where that is refused.
fn set_in<F: Fold, S: BlockSize>(
    alloc: Global,
    part: PartMut<'_, F, S>,
    place: u64,
    item: F::Item,
) -> Result<(), NoMemory>
    requires { place < length part.tree.now.items }
    ensures items { IfOk result (λ _. part.exit.0.now.items ≡ slice_set part.entry.tree.now.items place item) }
    ensures kept { OnErr result (part.exit.0.now ≡ part.entry.tree.now) }
{
    let PartMut { tree } = part;
    if let Top::Node(owner) = &mut tree.top {
        if let Some(node) = Arc::get_mut(owner) {
            if place < node.before {
                let left = PartMut {
                    tree: &mut node.left,
                };
                set_in(alloc, left, place, item)?;
                refresh(alloc, node);
                return Ok(());
            }
            if place == node.before {
                node.item = item;
                refresh(alloc, node);
                return Ok(());
            }
            let place_in = place - node.before - 1;
            let right = PartMut {
                tree: &mut node.right,
            };
            set_in(alloc, right, place_in, item)?;
            refresh(alloc, node);
            return Ok(());
        }
    }
    set_at_end(alloc, PartMut { tree }, place, item)
}

/// The end of the way down: in place in a block that has one owner, and else in a copy. It is no part of `set_in`, so that a level
/// saves few registers.
#[inline(never)]
fn set_at_end<F: Fold, S: BlockSize>(
    alloc: Global,
    part: PartMut<'_, F, S>,
    place: u64,
    item: F::Item,
) -> Result<(), NoMemory>
    requires { place < length part.tree.now.items }
    ensures items { IfOk result (λ _. part.exit.0.now.items ≡ slice_set part.entry.tree.now.items place item) }
    ensures kept { OnErr result (part.exit.0.now ≡ part.entry.tree.now) }
{
    let PartMut { tree } = part;
    if let Top::Block(owner) = &mut tree.top {
        if let Some(block) = Arc::get_mut(owner) {
            block.items[place as usize] = item;
            block.sum = sum_uncounted::<F>(&block.items);
            return Ok(());
        }
    }
    *tree = set_at(alloc, Part { tree }, place, item)?;
    Ok(())
}
