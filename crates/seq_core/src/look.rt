//! A view of a sequence's top.
ghost use Rattle.map_model.specs.Balance.{IsBlockSize};
ghost use Rattle.seq_core.specs.Look.{IsLook};

use crate::fold::Fold;
use crate::tree::{SeqTree, Top};
use crate::width::BlockSize;

/// The top of a sequence.
#[derive(Drop)]
pub enum Look<'a, F: Fold, S: BlockSize> {
    Empty,
    Block {
        items: &'a [F::Item],
    },
    Node {
        /// How many items the left side has.
        before: u64,
        left: &'a SeqTree<F, S>,
        item: &'a F::Item,
        right: &'a SeqTree<F, S>,
    },
}

impl<F: Fold, S: BlockSize> SeqTree<F, S> {
    /// Lends the top: nothing, a block of at most `2 * B` items, or a node over two balanced sides. It takes no memory.
    pub fn look(&self) -> Look<'_, F, S>
        ensures top { IsLook S.SIZE self.now result }
        ensures lawful { IsBlockSize S.SIZE }
    {
        match &self.top {
            Top::Empty(_) => Look::Empty,
            Top::Block(block) => Look::Block {
                items: block.items.as_slice(),
            },
            Top::Node(node) => Look::Node {
                before: node.before,
                left: &node.left,
                item: &node.item,
                right: &node.right,
            },
        }
    }
}
