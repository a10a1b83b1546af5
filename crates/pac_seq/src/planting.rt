//! Sequences of given items.
ghost use Rattle.std.specs.Prelude.{◌≡◌, ◌*◌, ◌≤◌, ◌++◌, IfOk, length};
ghost use Rattle.map_model.specs.Balance.{IsBlockSize};

use crate::seq::SeqOver;
use aug_monoid::{NoMemory, Share};
use seq_core::{BlockSize, Fold, Look, Part, SeqTree, copy_items, join, push_items};
use std::alloc::Global;

/// The sequence of items, by halves.
fn planted<F: Fold, S: BlockSize>(
    alloc: Global,
    from: &[F::Item],
) -> Result<SeqTree<F, S>, NoMemory>
    requires { IsBlockSize S.SIZE }
    ensures { IfOk result (λ tree. tree.items ≡ from.now) }
{
    if from.len() <= 2 * S::SIZE {
        let items = copy_items::<F>(alloc, from)?;
        return SeqTree::from_few(alloc, items);
    }
    let (front, rest) = from.split_at((from.len() - 1) / 2);
    let Some((middle, back)) = rest.split_first() else {
        unreachable!()
    };
    let left = planted(alloc, front)?;
    let right = planted(alloc, back)?;
    join(alloc, &left, middle.share(alloc)?, &right)
}

/// The items of two slices in one vector of just their number.
fn joined_items<F: Fold>(
    alloc: Global,
    front: &[F::Item],
    back: &[F::Item],
) -> Result<Vec<F::Item>, NoMemory>
    requires short_front { length front.now ≤ 256 }
    requires short_back { length back.now ≤ 256 }
    ensures { IfOk result (λ all. all.items ≡ front.now ++ back.now) }
{
    let mut all = Vec::with_capacity(alloc, front.len() + back.len())?;
    push_items::<F>(alloc, front, &mut all)?;
    push_items::<F>(alloc, back, &mut all)?;
    Ok(all)
}

/// The items of a block, and then those of a slice.
fn pushed_to_block<F: Fold, S: BlockSize>(
    alloc: Global,
    block: &SeqTree<F, S>,
    items: &[F::Item],
    more: &[F::Item],
) -> Result<SeqTree<F, S>, NoMemory>
    requires same { block.now.items ≡ items.now }
    requires short { length items.now ≤ 2 * S.SIZE }
    ensures { IfOk result (λ tree. tree.items ≡ items.now ++ more.now) }
{
    // For the proof alone: the block size is lawful.
    let _size = block.block_size();
    if more.len() <= 2 * S::SIZE {
        let all = joined_items::<F>(alloc, items, more)?;
        return SeqTree::from_few(alloc, all);
    }
    let Some((first, rest)) = more.split_first() else {
        unreachable!()
    };
    let back = planted(alloc, rest)?;
    join(alloc, block, first.share(alloc)?, &back)
}

/// The items of a sequence, and then those of a slice.
fn pushed<F: Fold, S: BlockSize>(
    alloc: Global,
    part: Part<'_, F, S>,
    more: &[F::Item],
) -> Result<SeqTree<F, S>, NoMemory>
    ensures { IfOk result (λ tree. tree.items ≡ part.entry.tree.now.items ++ more.now) }
{
    match part.tree.look() {
        Look::Empty => planted(alloc, more),
        Look::Block { items } => pushed_to_block(alloc, part.tree, items, more),
        Look::Node {
            left,
            item,
            right,
            ..
        } => {
            let back = pushed(alloc, Part { tree: right }, more)?;
            join(alloc, left, item.share(alloc)?, &back)
        }
    }
}

impl<F: Fold, S: BlockSize> SeqOver<F, S> {
    /// The sequence of the items of a slice, in time linear in their number.
    pub fn from_items(alloc: Global, items: &[F::Item]) -> Result<SeqOver<F, S>, NoMemory>
        requires { IsBlockSize S.SIZE }
        ensures { IfOk result (λ seq. seq.items ≡ items.now) }
    {
        let tree = planted(alloc, items)?;
        Ok(SeqOver { tree })
    }

    /// These items, and then those of a slice. The last block takes them as far as it goes, so that a few items copy one path
    /// and one block. Its time is linear in the height and the number of items of the slice.
    pub fn push(&self, alloc: Global, items: &[F::Item]) -> Result<SeqOver<F, S>, NoMemory>
        ensures { IfOk result (λ seq. seq.items ≡ self.now.items ++ items.now) }
    {
        let tree = pushed(alloc, Part { tree: &self.tree }, items)?;
        Ok(SeqOver { tree })
    }
}
