//! The constructors that keep the shape of a tree.
ghost use Rattle.std.specs.Prelude.{◌≡◌, ◌+◌, ◌*◌, ◌<◌, ◌≤◌, ◌↔◌, ◌∷◌, ◌++◌, IfOk, IsTrue, length};
ghost use Rattle.map_model.specs.Balance.{FillsBlock, FillsNode, IsBalanced, weight};
ghost use Rattle.map_model.specs.Entries.{IsIncreasing};
ghost use Rattle.tree_shape.specs.Shape.{IsNode, link_cost};

use crate::cut::{Around, cut_owned};
use crate::look::Look;
use crate::shape::Shape;
use crate::tree::{Node, Top, Tree};
use aug_monoid::{Leaf, NoMemory, Share, Steps, share_entry};
use std::alloc::Global;
use std::sync::ledger::Ledger;

/// The entries of a node over two blocks in one leaf.
pub(crate) fn leaf_over_blocks<M: Shape>(alloc: Global, node: &Node<M>) -> Result<M::Leaf, NoMemory>
    requires lawful { IsNode M.Key.cmp M.Augment.base_of M.Augment.unit_of M.Augment.combined M.BLOCK node.now.left node.now.key node.now.val node.now.right node.now.fold node.now.size node.now.height }
    requires small { length node.now.left.entries + length node.now.right.entries + 1 ≤ 4 * M.BLOCK }
    ensures { IfOk result (λ leaf. M.Leaf.entries leaf ≡ node.now.left.entries ++ (node.now.key, node.now.val) ∷ node.now.right.entries) }
{
    let (key, val) = share_entry(alloc, &node.key, &node.val)?;
    let (left, right) = (node.left.block_leaf(), node.right.block_leaf());
    left.concat3(alloc, key, val, right)
}

impl<M: Shape> Tree<M> {
    /// How many entries a block holds at least. It holds at most twice as many.
    pub fn block_size(&self) -> u64
        ensures value { result ≡ M.BLOCK }
    {
        M::BLOCK as u64
    }

    /// Whether these are the entries of one block below a node.
    fn fills_block(&self) -> bool
        ensures { IsTrue result ↔ FillsBlock M.BLOCK (length self.now.entries) }
    {
        let size = self.size();
        self.block_size() <= size && size <= 2 * self.block_size()
    }

    /// Whether a node may stand over two trees: they are blocks, or they have more than `4 * M::BLOCK` entries with one between them.
    /// O(1).
    pub fn fill_node(left: &Self, right: &Self) -> bool
        ensures value { IsTrue result ↔ FillsNode M.BLOCK (length left.now.entries) (length right.now.entries) }
    {
        let are_many = left.size() + right.size() >= 4 * left.block_size();
        are_many || left.fills_block() && right.fills_block()
    }

    /// The leaf of a tree that is one block.
    fn block_leaf(&self) -> &M::Leaf
        requires some { 0 < length self.now.entries }
        requires short { length self.now.entries ≤ 2 * M.BLOCK }
        ensures { M.Leaf.entries result.now ≡ self.now.entries }
    {
        let Look::Block { leaf } = self.look() else {
            unreachable!()
        };
        leaf
    }

    /// The entries of a small tree in one leaf.
    fn to_leaf(&self, alloc: Global) -> Result<M::Leaf, NoMemory>
        requires { length self.now.entries ≤ 4 * M.BLOCK }
        ensures { IfOk result (λ leaf. M.Leaf.entries leaf ≡ self.now.entries) }
    {
        match &self.top {
            Top::Empty => <M::Leaf>::from_owned(alloc, Vec::new(alloc)),
            Top::Block(block) => block.leaf.front(alloc, block.leaf.len()),
            Top::Node(node) => leaf_over_blocks(alloc, node),
        }
    }

    /// A tree of one block, or of none where the leaf has no entries.
    pub(crate) fn block_or_none<C: Ledger>(
        alloc: Global,
        leaf: M::Leaf,
        steps: &mut Steps<C>,
    ) -> Result<Tree<M>, NoMemory>
        requires increasing { IsIncreasing M.Key.cmp (M.Leaf.entries leaf) }
        requires short { length (M.Leaf.entries leaf) ≤ 2 * M.BLOCK }
        ensures entries { IfOk result (λ tree. tree.entries ≡ M.Leaf.entries leaf) }
        ensures cost { steps.new ≤ steps.old + length (M.Leaf.entries leaf) }
    {
        if leaf.len() == 0 {
            Ok(Self::empty())
        } else {
            Self::block(alloc, leaf, steps)
        }
    }

    /// A tree of two blocks with an entry between them.
    fn two_blocks<C: Ledger>(
        alloc: Global,
        leaf: M::Leaf,
        steps: &mut Steps<C>,
    ) -> Result<Tree<M>, NoMemory>
        requires increasing { IsIncreasing M.Key.cmp (M.Leaf.entries leaf) }
        requires long { 2 * M.BLOCK < length (M.Leaf.entries leaf) }
        requires small { length (M.Leaf.entries leaf) ≤ 4 * M.BLOCK }
        ensures entries { IfOk result (λ tree. tree.entries ≡ M.Leaf.entries leaf) }
        ensures cost { steps.new ≤ steps.old + (length (M.Leaf.entries leaf) + 1) }
    {
        let middle = (leaf.len() - 1) / 2;
        let Around {
            front,
            key,
            val,
            back,
        } = cut_owned(alloc, leaf, middle)?;
        let left = Self::block(alloc, front, steps)?;
        let right = Self::block(alloc, back, steps)?;
        Self::node(alloc, left, key, val, right, steps)
    }

    /// The tree of a leaf's entries: none, one block, or two blocks with an entry between them. O(M::BLOCK).
    pub fn from_leaf<C: Ledger>(
        alloc: Global,
        leaf: M::Leaf,
        steps: &mut Steps<C>,
    ) -> Result<Tree<M>, NoMemory>
        requires increasing { IsIncreasing M.Key.cmp (M.Leaf.entries leaf) }
        requires small { length (M.Leaf.entries leaf) ≤ 4 * M.BLOCK }
        ensures entries { IfOk result (λ tree. tree.entries ≡ M.Leaf.entries leaf) }
        ensures cost { steps.new ≤ steps.old + (length (M.Leaf.entries leaf) + 1) }
    {
        if leaf.len() <= 2 * M::BLOCK as u64 {
            Self::block_or_none(alloc, leaf, steps)
        } else {
            Self::two_blocks(alloc, leaf, steps)
        }
    }

    /// A node over two trees that fill one, to which it gives another owner.
    fn node_over_shared<C: Ledger>(
        alloc: Global,
        left: &Tree<M>,
        key: M::Key,
        val: M::Val,
        right: &Tree<M>,
        steps: &mut Steps<C>,
    ) -> Result<Tree<M>, NoMemory>
        requires increasing { IsIncreasing M.Key.cmp (left.now.entries ++ (key, val) ∷ right.now.entries) }
        requires balanced { IsBalanced (weight left.now.entries) (weight right.now.entries) }
        requires filled { FillsNode M.BLOCK (length left.now.entries) (length right.now.entries) }
        ensures entries { IfOk result (λ tree. tree.entries ≡ left.now.entries ++ (key, val) ∷ right.now.entries) }
        ensures cost { steps.new ≤ steps.old + 2 }
    {
        let left = left.share(alloc)?;
        let right = right.share(alloc)?;
        Self::node(alloc, left, key, val, right, steps)
    }

    /// The entries of two small trees and an entry between them in one leaf.
    fn leaf_of_all(
        alloc: Global,
        left: &Tree<M>,
        key: M::Key,
        val: M::Val,
        right: &Tree<M>,
    ) -> Result<M::Leaf, NoMemory>
        requires increasing { IsIncreasing M.Key.cmp (left.now.entries ++ (key, val) ∷ right.now.entries) }
        requires small { length left.now.entries + length right.now.entries + 1 ≤ 4 * M.BLOCK }
        ensures { IfOk result (λ leaf. M.Leaf.entries leaf ≡ left.now.entries ++ (key, val) ∷ right.now.entries) }
    {
        let front = left.to_leaf(alloc)?;
        let back = right.to_leaf(alloc)?;
        front.concat3_owned(alloc, key, val, back)
    }

    /// The tree of two trees and an entry between them, which are balanced or have few entries: a node over the two where they
    /// fill one, or else blocks made anew. O(M::BLOCK).
    pub fn link<C: Ledger>(
        alloc: Global,
        left: &Tree<M>,
        key: M::Key,
        val: M::Val,
        right: &Tree<M>,
        steps: &mut Steps<C>,
    ) -> Result<Tree<M>, NoMemory>
        requires increasing { IsIncreasing M.Key.cmp (left.now.entries ++ (key, val) ∷ right.now.entries) }
        requires balanced { 4 * M.BLOCK < length left.now.entries + length right.now.entries + 1 → IsBalanced (weight left.now.entries) (weight right.now.entries) }
        ensures entries { IfOk result (λ tree. tree.entries ≡ left.now.entries ++ (key, val) ∷ right.now.entries) }
        ensures cost { steps.new ≤ steps.old + link_cost M.BLOCK }
    {
        if Self::fill_node(left, right) {
            Self::node_over_shared(alloc, left, key, val, right, steps)
        } else {
            let leaf = Self::leaf_of_all(alloc, left, key, val, right)?;
            Self::from_leaf(alloc, leaf, steps)
        }
    }

    /// A node over two balanced trees that fill one. It takes the trees, so that one just made gets no second owner. O(1).
    pub fn link_owned<C: Ledger>(
        alloc: Global,
        left: Tree<M>,
        key: M::Key,
        val: M::Val,
        right: Tree<M>,
        steps: &mut Steps<C>,
    ) -> Result<Tree<M>, NoMemory>
        requires increasing { IsIncreasing M.Key.cmp (left.entries ++ (key, val) ∷ right.entries) }
        requires filled { FillsNode M.BLOCK (length left.entries) (length right.entries) }
        requires balanced { IsBalanced (weight left.entries) (weight right.entries) }
        ensures entries { IfOk result (λ tree. tree.entries ≡ left.entries ++ (key, val) ∷ right.entries) }
        ensures cost { steps.new ≤ steps.old + link_cost M.BLOCK }
    {
        Self::node(alloc, left, key, val, right, steps)
    }
}
