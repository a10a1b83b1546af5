//! Nodes and blocks over given items.
ghost use Rattle.std.specs.Prelude.{◌≡◌, ◌+◌, ◌*◌, ◌^◌, ◌<◌, ◌≤◌, ◌∷◌, ◌++◌, IfOk, length};
ghost use Rattle.std.specs.Arc.{arc_value};
ghost use Rattle.map_model.specs.Balance.{FillsNode, IsBlockSize, IsBalanced, weight};

use crate::fold::Fold;
use crate::items::{sum_around, sum_uncounted};
use crate::tree::{Block, Node, SeqTree, Top};
use crate::width::BlockSize;
use aug_monoid::NoMemory;
use std::alloc::Global;
use std::sync::Arc;

/// A sequence has fewer items than this.
pub(crate) const MOST_ITEMS: u64 = 0x1000_0000_0000_0000;

fn owned<T: Drop>(alloc: Global, value: T) -> Result<Arc<T>, NoMemory>
    ensures { IfOk result (λ owner. arc_value owner ≡ value) }
{
    match Arc::new(alloc, value) {
        Ok(owner) => Ok(owner),
        Err(_) => Err(NoMemory),
    }
}

impl<F: Fold, S: BlockSize> SeqTree<F, S> {
    /// A sequence of one block.
    pub(crate) fn block(alloc: Global, items: Vec<F::Item>) -> Result<SeqTree<F, S>, NoMemory>
        requires block_size { IsBlockSize S.SIZE }
        requires some { 0 < length items.items }
        requires short { length items.items ≤ 2 * S.SIZE }
        ensures { IfOk result (λ tree. tree.items ≡ items.items) }
    {
        let sum = sum_uncounted::<F>(&items);
        let block = owned(alloc, Block { items, sum })?;
        Ok(SeqTree {
            top: Top::Block(block),
        })
    }

    /// A node over two balanced sides.
    pub(crate) fn node(
        alloc: Global,
        left: SeqTree<F, S>,
        item: F::Item,
        right: SeqTree<F, S>,
    ) -> Result<SeqTree<F, S>, NoMemory>
        requires block_size { IsBlockSize S.SIZE }
        requires balanced { IsBalanced (weight left.items) (weight right.items) }
        requires filled { FillsNode S.SIZE (length left.items) (length right.items) }
        ensures { IfOk result (λ tree. tree.items ≡ left.items ++ item ∷ right.items) }
    {
        let before = left.size();
        let size = before + right.size() + 1;
        if size >= MOST_ITEMS {
            return Err(NoMemory);
        }
        let height = left.height().max(right.height()) + 1;
        let sum = sum_around::<F>(&left.sum(alloc), &item, &right.sum(alloc));
        let node = owned(
            alloc,
            Node {
                before,
                left,
                right,
                item,
                size,
                height,
                sum,
            },
        )?;
        Ok(SeqTree {
            top: Top::Node(node),
        })
    }
}
