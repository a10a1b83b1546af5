//! The tree and its top.
ghost use Rattle.std.specs.Prelude.{◌≡◌, ◌+◌, ◌^◌, ◌<◌, ◌≤◌, ◌↔◌, [], ◌∷◌, ◌++◌, IfOk, IfSome, IsNone, length};
ghost use Rattle.std.specs.Arc.{arc_value};
ghost use Rattle.map_model.specs.Entries.{IsIncreasing};
ghost use Rattle.map_model.specs.Fold.{fold_of};
ghost use Rattle.map_model.specs.Balance.{HeightLaw};

use crate::shape::Shape;
use aug_monoid::{Leaf, NoMemory, Share};
use std::alloc::Global;
use std::marker::Model;
use std::sync::Arc;

/// A persistent ordered map with the fold of its entries.
#[cycle(tree)]
pub struct Tree<M: Shape> {
    pub top: Top<M>,
}

/// The top of a tree. A change of it must keep the tree's shape, which its model states.
#[cycle(tree)]
#[derive(Drop)]
pub enum Top<M: Shape> {
    Empty,
    Block(Arc<Block<M>>),
    Node(Arc<Node<M>>),
}

/// A block, with the fold of its entries.
#[derive(Drop)]
pub struct Block<M: Shape> {
    pub leaf: M::Leaf,
    pub fold: M::Aug,
}

/// An entry between two sides, with the fold, the number and the height of all their entries.
#[cycle(tree)]
#[derive(Drop)]
pub struct Node<M: Shape> {
    pub size: u64,
    pub key: M::Key,
    pub left: Tree<M>,
    pub right: Tree<M>,
    pub fold: M::Aug,
    pub val: M::Val,
    pub height: u32,
}

impl<M: Shape> Model for Tree<M> {
    ghost use Rattle.std.specs.Prelude.{length};
    ghost use Rattle.map_model.specs.Contents.{Contents};

    ghost Value = { Contents M.Key M.Val };

    ghost use Rattle.tree_shape.specs.Top.{contents, IsTop};

    ghost view = { λ t. contents M.Leaf.entries t.top };

    ghost invariant = { λ t. IsTop M.Leaf.entries M.Key.cmp M.Augment.base_of M.Augment.unit_of M.Augment.combined M.BLOCK t.top };

    ghost size = { λ c. length c.entries };

    ghost use Rattle.std.proofs.Common.{arith, length-append};

    ghost size_decreases = { λ t h. Prim.grind (arith, length-append) };
}

impl<M: Shape> Tree<M> {
    /// The map with no entries. O(1).
    pub fn empty() -> Tree<M>
        ensures { result ≡ record { entries = []; height = 0 } }
    {
        Tree { top: Top::Empty }
    }

    /// How many entries there are. O(1).
    pub fn size(&self) -> u64
        ensures value { result ≡ length self.now.entries }
        ensures fits { result < 2 ^ 60 }
        ensures increasing { IsIncreasing M.Key.cmp self.now.entries }
    {
        match &self.top {
            Top::Empty => 0,
            Top::Block(block) => block.leaf.len(),
            Top::Node(node) => node.size,
        }
    }

    /// How many nodes are on the longest path, which the number of entries bounds. O(1).
    pub fn height(&self) -> u32
        ensures value { result ≡ self.now.height }
        ensures law { HeightLaw M.BLOCK self.now.height (length self.now.entries) }
    {
        match &self.top {
            Top::Empty => 0,
            Top::Block(_) => 0,
            Top::Node(node) => node.height,
        }
    }

    /// The stored fold of the entries. O(1).
    pub fn aug(&self) -> Option<&M::Aug>
        ensures none { IsNone result ↔ (self.now.entries ≡ []) }
        ensures fold { IfSome result (λ aug. aug.now ≡ fold_of M.Augment.base_of M.Augment.unit_of M.Augment.combined self.now.entries) }
    {
        match &self.top {
            Top::Empty => None,
            Top::Block(block) => Some(&block.fold),
            Top::Node(node) => Some(&node.fold),
        }
    }
}

// By hand, so that it is proved here once: crates above prove a derived one anew, with that of nodes and blocks.
impl<M: Shape> Drop for Tree<M> {
    #[cycle(tree)]
    fn drop(self) {
        let Tree { top } = self;
        drop(top);
    }
}

impl<M: Shape> Share for Tree<M> {
    ghost never_refuses = { ⊥ };

    fn share(&self, _alloc: Global) -> Result<Tree<M>, NoMemory> {
        match &self.top {
            Top::Empty => Ok(Tree { top: Top::Empty }),
            Top::Block(block) => Ok(Tree {
                top: Top::Block(another_owner(block)?),
            }),
            Top::Node(node) => Ok(Tree {
                top: Top::Node(another_owner(node)?),
            }),
        }
    }
}

fn another_owner<T>(value: &Arc<T>) -> Result<Arc<T>, NoMemory>
    ensures { IfOk result (λ copy. arc_value copy ≡ arc_value value.now) }
{
    match Arc::try_clone(value) {
        Ok(copy) => Ok(copy),
        Err(_) => Err(NoMemory),
    }
}
