//! What puts sequences together, and what cuts them.
ghost use Rattle.std.specs.Prelude.{◌≡◌, ◌*◌, ◌≤◌, [], ◌∷◌, ◌++◌, IfOk, IfSome, IsNone, length, take, drop};
ghost use Rattle.map_model.specs.Balance.{IsBlockSize};

use crate::fold::Fold;
use crate::items::copy_items;
use crate::joins::join;
use crate::look::Look;
use crate::tree::{Part, SeqTree};
use crate::width::BlockSize;
use aug_monoid::{NoMemory, Share};
use std::alloc::Global;

/// The first `count` items of a block.
fn take_block<F: Fold, S: BlockSize>(
    alloc: Global,
    items: &[F::Item],
    count: u64,
) -> Result<SeqTree<F, S>, NoMemory>
    requires block_size { IsBlockSize S.SIZE }
    requires short { length items.now ≤ 2 * S.SIZE }
    requires within { count ≤ length items.now }
    ensures { IfOk result (λ tree. tree.items ≡ take count items.now) }
{
    let (front, _) = items.split_at(count as usize);
    SeqTree::from_few(alloc, copy_items::<F>(alloc, front)?)
}

/// The items of a block after the first `count`.
fn skip_block<F: Fold, S: BlockSize>(
    alloc: Global,
    items: &[F::Item],
    count: u64,
) -> Result<SeqTree<F, S>, NoMemory>
    requires block_size { IsBlockSize S.SIZE }
    requires short { length items.now ≤ 2 * S.SIZE }
    requires within { count ≤ length items.now }
    ensures { IfOk result (λ tree. tree.items ≡ drop count items.now) }
{
    let (_, back) = items.split_at(count as usize);
    SeqTree::from_few(alloc, copy_items::<F>(alloc, back)?)
}

/// The first `count` items; all where there are fewer. Its time is linear in the height and the size of a block.
pub fn take<F: Fold, S: BlockSize>(
    alloc: Global,
    part: Part<'_, F, S>,
    count: u64,
) -> Result<SeqTree<F, S>, NoMemory>
    ensures { IfOk result (λ tree. tree.items ≡ take count part.entry.tree.now.items) }
{
    if count >= part.tree.size() {
        return part.tree.share(alloc);
    }
    match part.tree.look() {
        Look::Empty => unreachable!(),
        Look::Block { items } => take_block(alloc, items, count),
        Look::Node {
            before,
            left,
            item,
            right,
        } => {
            if count <= before {
                return take(alloc, Part { tree: left }, count);
            }
            let front = take(alloc, Part { tree: right }, count - before - 1)?;
            join(alloc, left, item.share(alloc)?, &front)
        }
    }
}

/// The items after the first `count`; none where there are no more. Its time is linear in the height and the size of a block.
pub fn skip<F: Fold, S: BlockSize>(
    alloc: Global,
    part: Part<'_, F, S>,
    count: u64,
) -> Result<SeqTree<F, S>, NoMemory>
    ensures { IfOk result (λ tree. tree.items ≡ drop count part.entry.tree.now.items) }
{
    if count == 0 {
        return part.tree.share(alloc);
    }
    if count >= part.tree.size() {
        // For the proof alone: the block size is lawful.
        let _size = part.tree.block_size();
        return Ok(SeqTree::new());
    }
    match part.tree.look() {
        Look::Empty => unreachable!(),
        Look::Block { items } => skip_block(alloc, items, count),
        Look::Node {
            before,
            left,
            item,
            right,
        } => {
            if count > before {
                return skip(alloc, Part { tree: right }, count - before - 1);
            }
            let back = skip(alloc, Part { tree: left }, count)?;
            join(alloc, &back, item.share(alloc)?, right)
        }
    }
}

/// The first item, which is lent.
fn first<'a, F: Fold, S: BlockSize>(part: Part<'a, F, S>) -> Option<&'a F::Item>
    ensures none { IsNone result → part.entry.tree.now.items ≡ [] }
    ensures some { IfSome result (λ item. part.entry.tree.now.items ≡ item.now ∷ drop 1 part.entry.tree.now.items) }
{
    match part.tree.look() {
        Look::Empty => None,
        Look::Block { items } => items.first(),
        Look::Node {
            before,
            left,
            item,
            ..
        } => {
            if before == 0 {
                Some(item)
            } else {
                first(Part { tree: left })
            }
        }
    }
}

/// The items of a sequence, and then those of another. Its time is linear in the heights and the size of a block.
pub fn append<F: Fold, S: BlockSize>(
    alloc: Global,
    left: &SeqTree<F, S>,
    right: &SeqTree<F, S>,
) -> Result<SeqTree<F, S>, NoMemory>
    ensures { IfOk result (λ tree. tree.items ≡ left.now.items ++ right.now.items) }
{
    if left.size() == 0 {
        return right.share(alloc);
    }
    let Some(item) = first(Part { tree: right }) else {
        return left.share(alloc);
    };
    let rest = skip(alloc, Part { tree: right }, 1)?;
    join(alloc, left, item.share(alloc)?, &rest)
}
