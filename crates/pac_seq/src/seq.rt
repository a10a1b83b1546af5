//! Sequences, and what they tell without a walk.
ghost use Rattle.std.specs.Prelude.{◌≡◌, ℕ, ◌+◌, ◌^◌, ◌<◌, [], IfOk, length};
ghost use Rattle.map_model.specs.Balance.{IsBlockSize, HeightLaw};
ghost use Rattle.seq_core.specs.Sums.{sum_of};

use aug_monoid::{NoMemory, Share};
use seq_core::{BlockSize, Fold, SeqTree, Width};
use std::alloc::Global;
use std::marker::Model;

/// A persistent sequence with the sum of its items, in blocks of `B` to `2 * B` items.
pub type Seq<F, const B: usize> = SeqOver<F, Width<B>>;

/// A persistent sequence with the sum of its items.
pub struct SeqOver<F: Fold, S: BlockSize> {
    pub(crate) tree: SeqTree<F, S>,
}

impl<F: Fold, S: BlockSize> Model for SeqOver<F, S> {
    ghost use Rattle.seq_core.specs.Contents.{Contents};

    ghost Value = { Contents F.Item };

    ghost view = { λ s. s.tree };
}

impl<F: Fold, S: BlockSize> Drop for SeqOver<F, S> {
    fn drop(self) {
        let SeqOver { tree } = self;
        drop(tree);
    }
}

impl<F: Fold, S: BlockSize> SeqOver<F, S> {
    /// The sequence of no items. It takes no memory. O(1).
    pub fn new() -> SeqOver<F, S>
        requires { IsBlockSize S.SIZE }
        ensures items { result.items ≡ [] }
        ensures height { result.height ≡ 0 }
    {
        SeqOver {
            tree: SeqTree::new(),
        }
    }

    /// How many items there are. O(1).
    pub fn size(&self) -> u64
        ensures value { result ≡ length self.now.items }
        ensures fits { result < 2 ^ 60 }
    {
        self.tree.size()
    }

    /// The height, which grows with the logarithm of the number of items.
    pub fn height(&self) -> u32
        ensures value { result ≡ self.now.height }
        ensures law { HeightLaw S.SIZE self.now.height (length self.now.items) }
    {
        self.tree.height()
    }

    /// The sum of all items, which is stored. It takes no memory. O(1).
    pub fn sum(&self, alloc: Global) -> F::Sum
        ensures { result ≡ sum_of F.image_of F.unit_of F.combined self.now.items }
    {
        self.tree.sum(alloc)
    }
}

impl<F: Fold, S: BlockSize> Share for SeqOver<F, S> {
    ghost never_refuses = { ⊥ };

    /// The same sequence: a pointer is copied and one owner more is counted. O(1).
    fn share(&self, alloc: Global) -> Result<SeqOver<F, S>, NoMemory> {
        let tree = self.tree.share(alloc)?;
        Ok(SeqOver { tree })
    }
}
