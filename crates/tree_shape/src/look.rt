//! A view of a tree's top.
ghost use Rattle.tree_shape.specs.Look.{IsLook};

use crate::shape::Shape;
use crate::tree::{Top, Tree};

/// The top of a tree.
#[derive(Drop)]
pub enum Look<'a, M: Shape> {
    Empty,
    Block {
        leaf: &'a M::Leaf,
    },
    Node {
        left: &'a Tree<M>,
        key: &'a M::Key,
        val: &'a M::Val,
        right: &'a Tree<M>,
    },
}

impl<M: Shape> Tree<M> {
    /// Lends the tree's top: nothing, a block of at most `2 * M::BLOCK` entries, or a node over two balanced sides. It takes no memory.
    pub fn look(&self) -> Look<'_, M>
        ensures top { IsLook M.Leaf.entries M.Key.cmp M.BLOCK self.now result }
    {
        match &self.top {
            Top::Empty => Look::Empty,
            Top::Block(block) => Look::Block { leaf: &block.leaf },
            Top::Node(node) => Look::Node {
                left: &node.left,
                key: &node.key,
                val: &node.val,
                right: &node.right,
            },
        }
    }
}
