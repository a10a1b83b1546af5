//! The constructors that keep the shape of a sequence.
ghost use Rattle.std.specs.Prelude.{◌≡◌, ◌+◌, ◌-◌, ◌*◌, ◌<◌, ◌≤◌, ◌↔◌, ◌∷◌, ◌++◌, IfOk, IsTrue, length};
ghost use Rattle.map_model.specs.Balance.{FillsBlock, FillsNode, IsBlockSize, IsBalanced, weight};

use crate::fold::Fold;
use crate::items::{copy_items, push_items};
use crate::look::Look;
use crate::tree::SeqTree;
use crate::width::BlockSize;
use aug_monoid::{NoMemory, Share};
use std::alloc::Global;

impl<F: Fold, S: BlockSize> SeqTree<F, S> {
    /// How many items a block holds at least. It holds at most twice as many.
    pub fn block_size(&self) -> u64
        ensures value { result ≡ S.SIZE }
        ensures lawful { IsBlockSize S.SIZE }
    {
        let _ = self.look(); // for the proof alone: the block size is lawful
        S::SIZE as u64
    }

    /// Whether these are the items of one block below a node.
    fn fills_block(&self) -> bool
        ensures { IsTrue result ↔ FillsBlock S.SIZE (length self.now.items) }
    {
        let size = self.size();
        self.block_size() <= size && size <= 2 * self.block_size()
    }

    /// Whether a node may stand over two sequences: they are blocks, or they have more than `4 * B` items with one between them.
    pub(crate) fn fill_node(left: &Self, right: &Self) -> bool
        ensures value { IsTrue result ↔ FillsNode S.SIZE (length left.now.items) (length right.now.items) }
        ensures lawful { IsBlockSize S.SIZE }
    {
        let are_many = left.size() + right.size() >= 4 * left.block_size();
        are_many || left.fills_block() && right.fills_block()
    }

    /// Appends the items in order, block by block, in time linear in their number.
    pub(crate) fn push_to(&self, alloc: Global, out: &mut Vec<F::Item>) -> Result<(), NoMemory>
        ensures { IfOk result (λ _. out.new.items ≡ out.old.items ++ self.now.items) }
    {
        match self.look() {
            Look::Empty => Ok(()),
            Look::Block { items } => push_items::<F>(alloc, items, out),
            Look::Node {
                left,
                item,
                right,
                ..
            } => {
                left.push_to(alloc, out)?;
                out.push(item.share(alloc)?)?;
                right.push_to(alloc, out)
            }
        }
    }

    /// The items of two small sequences, and one between them, in one vector.
    pub(crate) fn gathered(
        alloc: Global,
        left: &Self,
        item: F::Item,
        right: &Self,
    ) -> Result<Vec<F::Item>, NoMemory>
        requires { length left.now.items + length right.now.items + 1 ≤ 4 * S.SIZE }
        ensures { IfOk result (λ all. all.items ≡ left.now.items ++ item ∷ right.now.items) }
    {
        // For the proof alone: the block size is lawful, so the count is small.
        let _size = left.block_size();
        let count = left.size() + right.size() + 1;
        let mut all = Vec::with_capacity(alloc, count as usize)?;
        left.push_to(alloc, &mut all)?;
        all.push(item)?;
        right.push_to(alloc, &mut all)?;
        Ok(all)
    }

    /// A block of these items, which it copies.
    fn copied_block(alloc: Global, items: &[F::Item]) -> Result<SeqTree<F, S>, NoMemory>
        requires block_size { IsBlockSize S.SIZE }
        requires some { 0 < length items.now }
        requires short { length items.now ≤ 2 * S.SIZE }
        ensures { IfOk result (λ tree. tree.items ≡ items.now) }
    {
        Self::block(alloc, copy_items::<F>(alloc, items)?)
    }

    /// A sequence of two blocks with an item between them, of which the first has `count` items.
    fn two_blocks(alloc: Global, items: &[F::Item], count: usize) -> Result<SeqTree<F, S>, NoMemory>
        requires block_size { IsBlockSize S.SIZE }
        requires front { FillsBlock S.SIZE count }
        requires back { FillsBlock S.SIZE (length items.now - count - 1) }
        ensures { IfOk result (λ tree. tree.items ≡ items.now) }
    {
        let (front, rest) = items.split_at(count);
        let Some((middle, back)) = rest.split_first() else {
            unreachable!()
        };
        let left = Self::copied_block(alloc, front)?;
        let right = Self::copied_block(alloc, back)?;
        Self::node(alloc, left, middle.share(alloc)?, right)
    }

    /// The sequence of two blocks of which the first is as full as can be, so that the last one has room.
    pub(crate) fn full_front(alloc: Global, items: &[F::Item]) -> Result<SeqTree<F, S>, NoMemory>
        requires block_size { IsBlockSize S.SIZE }
        requires long { 2 * S.SIZE < length items.now }
        requires small { length items.now ≤ 4 * S.SIZE }
        ensures { IfOk result (λ tree. tree.items ≡ items.now) }
    {
        let count = (2 * S::SIZE).min(items.len() - 1 - S::SIZE);
        Self::two_blocks(alloc, items, count)
    }

    /// The sequence of few items: none, one block, or two blocks with an item between them. O(B).
    pub fn from_few(alloc: Global, items: Vec<F::Item>) -> Result<SeqTree<F, S>, NoMemory>
        requires block_size { IsBlockSize S.SIZE }
        requires small { length items.items ≤ 4 * S.SIZE }
        ensures { IfOk result (λ tree. tree.items ≡ items.items) }
    {
        if items.is_empty() {
            Ok(Self::new())
        } else if items.len() <= 2 * S::SIZE {
            Self::block(alloc, items)
        } else {
            Self::two_blocks(alloc, &items, (items.len() - 1) / 2)
        }
    }

    /// The sequence of two sequences and an item between them, which are balanced or have few items: a node over the two where
    /// they fill one, or else blocks made anew.
    pub(crate) fn link(
        alloc: Global,
        left: &SeqTree<F, S>,
        item: F::Item,
        right: &SeqTree<F, S>,
    ) -> Result<SeqTree<F, S>, NoMemory>
        requires { 4 * S.SIZE < length left.now.items + length right.now.items + 1 → IsBalanced (weight left.now.items) (weight right.now.items) }
        ensures { IfOk result (λ tree. tree.items ≡ left.now.items ++ item ∷ right.now.items) }
    {
        if Self::fill_node(left, right) {
            let left = left.share(alloc)?;
            let right = right.share(alloc)?;
            Self::node(alloc, left, item, right)
        } else {
            let all = Self::gathered(alloc, left, item, right)?;
            Self::from_few(alloc, all)
        }
    }
}
