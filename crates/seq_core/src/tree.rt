//! The type and its top.
ghost use Rattle.std.specs.Prelude.{◌≡◌, ◌+◌, ◌^◌, ◌<◌, ◌≤◌, ◌↔◌, [], ◌∷◌, ◌++◌, IfOk, length};
ghost use Rattle.std.specs.Arc.{arc_value};
ghost use Rattle.map_model.specs.Balance.{IsBlockSize, HeightLaw};
ghost use Rattle.seq_core.specs.Sums.{sum_of};

use crate::fold::Fold;
use crate::items::share_sum;
use crate::width::BlockSize;
use aug_monoid::{NoMemory, Share};
use std::alloc::Global;
use std::marker::{Model, PhantomData};
use std::sync::Arc;

/// A persistent sequence with the sum of its items, in blocks of the block size to twice as many.
#[cycle(tree)]
pub struct SeqTree<F: Fold, S: BlockSize> {
    pub(crate) top: Top<F, S>,
}

/// The top of a sequence.
#[cycle(tree)]
#[derive(Drop)]
pub(crate) enum Top<F: Fold, S: BlockSize> {
    Empty(PhantomData<S>),
    Block(Arc<Block<F>>),
    Node(Arc<Node<F, S>>),
}

/// A block, with the sum of its items.
#[derive(Drop)]
pub(crate) struct Block<F: Fold> {
    pub(crate) items: Vec<F::Item>,
    pub(crate) sum: F::Sum,
}

/// An item between two sides, with the number of items before it, and the number, the height and the sum of all. What walks to a
/// place and to a sum read stands first and side by side, on one line of the cache where it can.
#[cycle(tree)]
#[derive(Drop)]
pub(crate) struct Node<F: Fold, S: BlockSize> {
    pub(crate) item: F::Item,
    pub(crate) before: u64,
    pub(crate) left: SeqTree<F, S>,
    pub(crate) right: SeqTree<F, S>,
    pub(crate) sum: F::Sum,
    pub(crate) size: u64,
    pub(crate) height: u32,
}

/// A sequence in a struct of its own, as recursions take it. It is there for the proof alone.
#[derive(Drop)]
pub struct Part<'a, F: Fold, S: BlockSize> {
    pub tree: &'a SeqTree<F, S>,
}

impl<F: Fold, S: BlockSize> Model for SeqTree<F, S> {
    ghost use Rattle.std.specs.Prelude.{length};
    ghost use Rattle.seq_core.specs.Contents.{Contents};

    ghost Value = { Contents F.Item };

    ghost use Rattle.seq_core.specs.Top.{contents, IsTop};

    ghost view = { λ t. contents t.top };

    ghost invariant = { λ t. IsTop F.image_of F.unit_of F.combined S.SIZE t.top };

    ghost size = { λ c. length c.items };

    ghost use Rattle.std.proofs.Common.{arith, length-append};

    ghost size_decreases = { λ t h. Prim.grind (arith, length-append) };
}

impl<F: Fold, S: BlockSize> SeqTree<F, S> {
    /// The sequence of no items. It takes no memory. O(1).
    pub fn new() -> SeqTree<F, S>
        requires { IsBlockSize S.SIZE }
        ensures { result ≡ record { items = []; height = 0 } }
    {
        SeqTree {
            top: Top::Empty(PhantomData),
        }
    }

    /// How many items there are. O(1).
    pub fn size(&self) -> u64
        ensures value { result ≡ length self.now.items }
        ensures fits { result < 2 ^ 60 }
    {
        match &self.top {
            Top::Empty(_) => 0,
            Top::Block(block) => block.items.len() as u64,
            Top::Node(node) => node.size,
        }
    }

    /// How many nodes are on the longest path, which the number of items bounds. O(1).
    pub fn height(&self) -> u32
        ensures value { result ≡ self.now.height }
        ensures law { HeightLaw S.SIZE self.now.height (length self.now.items) }
    {
        match &self.top {
            Top::Empty(_) => 0,
            Top::Block(_) => 0,
            Top::Node(node) => node.height,
        }
    }

    /// The sum of the items, which is stored. It takes no memory. O(1).
    pub fn sum(&self, alloc: Global) -> F::Sum
        ensures { result ≡ sum_of F.image_of F.unit_of F.combined self.now.items }
    {
        match &self.top {
            Top::Empty(_) => F::unit(),
            Top::Block(block) => share_sum::<F>(alloc, &block.sum),
            Top::Node(node) => share_sum::<F>(alloc, &node.sum),
        }
    }
}

// By hand, so that it is proved here once: crates above prove a derived one anew, with that of nodes and blocks.
impl<F: Fold, S: BlockSize> Drop for SeqTree<F, S> {
    #[cycle(tree)]
    fn drop(self) {
        let SeqTree { top } = self;
        drop(top);
    }
}

impl<F: Fold, S: BlockSize> Share for SeqTree<F, S> {
    ghost never_refuses = { ⊥ };

    fn share(&self, _alloc: Global) -> Result<SeqTree<F, S>, NoMemory> {
        match &self.top {
            Top::Empty(_) => Ok(SeqTree {
                top: Top::Empty(PhantomData),
            }),
            Top::Block(block) => Ok(SeqTree {
                top: Top::Block(another_owner(block)?),
            }),
            Top::Node(node) => Ok(SeqTree {
                top: Top::Node(another_owner(node)?),
            }),
        }
    }
}

fn another_owner<T>(value: &Arc<T>) -> Result<Arc<T>, NoMemory>
    ensures { IfOk result (λ copy. arc_value copy ≡ arc_value value.now) }
{
    match Arc::try_clone(value) {
        Ok(copy) => Ok(copy),
        Err(_) => Err(NoMemory),
    }
}
