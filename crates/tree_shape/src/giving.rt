//! Small trees that are given up: what has one owner moves, and what has more is shared.
ghost use Rattle.std.specs.Prelude.{◌≡◌, ◌+◌, ◌*◌, ◌<◌, ◌≤◌, ◌∷◌, ◌++◌, IfOk, length};
ghost use Rattle.std.specs.Arc.{arc_value};
ghost use Rattle.map_model.specs.Entries.{IsIncreasing};
ghost use Rattle.tree_shape.specs.Shape.{IsNode, link_cost};

use crate::link::leaf_over_blocks;
use crate::shape::Shape;
use crate::tree::{Block, Node, Top, Tree};
use aug_monoid::{Leaf, NoMemory, Steps};
use std::alloc::Global;
use std::mem;
use std::sync::Arc;
use std::sync::ledger::Ledger;

/// The leaf of a block that an owner gives up.
fn leaf_of_block<M: Shape>(alloc: Global, owner: Arc<Block<M>>) -> Result<M::Leaf, NoMemory>
    ensures { IfOk result (λ leaf. M.Leaf.entries leaf ≡ M.Leaf.entries (arc_value owner).leaf) }
{
    match Arc::try_unwrap(owner) {
        Ok(block) => {
            let Block { leaf, fold: _ } = block;
            Ok(leaf)
        }
        Err(shared) => shared.leaf.front(alloc, shared.leaf.len()),
    }
}

/// The entries of a node over two blocks that an owner gives up, in one leaf.
fn leaf_of_node<M: Shape>(alloc: Global, owner: Arc<Node<M>>) -> Result<M::Leaf, NoMemory>
    requires lawful { IsNode M.Key.cmp M.Augment.base_of M.Augment.unit_of M.Augment.combined M.BLOCK (arc_value owner).left (arc_value owner).key (arc_value owner).val (arc_value owner).right (arc_value owner).fold (arc_value owner).size (arc_value owner).height }
    requires small { length (arc_value owner).left.entries + length (arc_value owner).right.entries + 1 ≤ 4 * M.BLOCK }
    ensures { IfOk result (λ leaf. M.Leaf.entries leaf ≡ (arc_value owner).left.entries ++ ((arc_value owner).key, (arc_value owner).val) ∷ (arc_value owner).right.entries) }
{
    match Arc::try_unwrap(owner) {
        Ok(node) => {
            let Node {
                left,
                key,
                val,
                right,
                ..
            } = node;
            let front = left.into_block_leaf(alloc)?;
            let back = right.into_block_leaf(alloc)?;
            front.concat3_owned(alloc, key, val, back)
        }
        Err(shared) => leaf_over_blocks(alloc, &shared),
    }
}

impl<M: Shape> Tree<M> {
    /// The leaf of a tree of one block that is given up.
    fn into_block_leaf(self, alloc: Global) -> Result<M::Leaf, NoMemory>
        requires some { 0 < length self.entries }
        requires short { length self.entries ≤ 2 * M.BLOCK }
        ensures { IfOk result (λ leaf. M.Leaf.entries leaf ≡ self.entries) }
    {
        let mut tree = self;
        match mem::replace(&mut tree.top, Top::Empty) {
            Top::Empty => unreachable!(),
            Top::Block(owner) => leaf_of_block(alloc, owner),
            Top::Node(_) => unreachable!(),
        }
    }

    /// The entries of a small tree that is given up, in one leaf.
    fn into_leaf(self, alloc: Global) -> Result<M::Leaf, NoMemory>
        requires { length self.entries ≤ 4 * M.BLOCK }
        ensures { IfOk result (λ leaf. M.Leaf.entries leaf ≡ self.entries) }
    {
        let mut tree = self;
        match mem::replace(&mut tree.top, Top::Empty) {
            Top::Empty => <M::Leaf>::from_owned(alloc, Vec::new(alloc)),
            Top::Block(owner) => leaf_of_block(alloc, owner),
            Top::Node(owner) => leaf_of_node(alloc, owner),
        }
    }

    /// The tree of two small trees that are given up and an entry between them, in blocks made anew: entries that have one owner
    /// move to them. O(M::BLOCK).
    pub fn link_small<C: Ledger>(
        alloc: Global,
        left: Tree<M>,
        key: M::Key,
        val: M::Val,
        right: Tree<M>,
        steps: &mut Steps<C>,
    ) -> Result<Tree<M>, NoMemory>
        requires increasing { IsIncreasing M.Key.cmp (left.entries ++ (key, val) ∷ right.entries) }
        requires small { length left.entries + length right.entries + 1 ≤ 4 * M.BLOCK }
        ensures entries { IfOk result (λ tree. tree.entries ≡ left.entries ++ (key, val) ∷ right.entries) }
        ensures cost { steps.new ≤ steps.old + link_cost M.BLOCK }
    {
        let front = left.into_leaf(alloc)?;
        let back = right.into_leaf(alloc)?;
        let leaf = front.concat3_owned(alloc, key, val, back)?;
        Self::from_leaf(alloc, leaf, steps)
    }
}
