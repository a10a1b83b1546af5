//! Maps, and what they tell without a walk.
ghost use Rattle.std.specs.Prelude.{◌≡◌, ℕ, ◌+◌, ◌^◌, ◌<◌, ◌↔◌, [], IfOk, IfSome, IsNone, length};
ghost use Rattle.map_model.specs.Balance.{HeightLaw};
ghost use Rattle.map_model.specs.Entries.{IsIncreasing};
ghost use Rattle.map_model.specs.Fold.{fold_of};

use aug_monoid::{NoMemory, Share};
use std::alloc::Global;
use std::marker::Model;
use tree_shape::{Shape, Tree};

/// A persistent ordered map of the keys and values of a shape, with the fold of its entries.
pub struct Map<M: Shape> {
    pub(crate) tree: Tree<M>,
}

impl<M: Shape> Model for Map<M> {
    ghost use Rattle.map_model.specs.Contents.{Contents};

    ghost Value = { Contents M.Key M.Val };

    ghost view = { λ m. m.tree };
}

impl<M: Shape> Drop for Map<M> {
    fn drop(self) {
        let Map { tree } = self;
        drop(tree);
    }
}

impl<M: Shape> Map<M> {
    /// The map with no entries. It takes no memory. O(1).
    pub fn empty() -> Map<M>
        ensures entries { result.entries ≡ [] }
        ensures height { result.height ≡ 0 }
    {
        Map {
            tree: Tree::empty(),
        }
    }

    /// The map of a tree that a call made, or the refusal of the call.
    pub(crate) fn from_tree(made: Result<Tree<M>, NoMemory>) -> Result<Map<M>, NoMemory>
        ensures { result ≡ made }
    {
        let tree = made?;
        Ok(Map { tree })
    }

    /// How many entries there are. O(1).
    pub fn size(&self) -> u64
        ensures value { result ≡ length self.now.entries }
        ensures fits { result < 2 ^ 60 }
        ensures increasing { IsIncreasing M.Key.cmp self.now.entries }
    {
        self.tree.size()
    }

    /// The height, which grows with the logarithm of the number of entries.
    pub fn height(&self) -> u32
        ensures value { result ≡ self.now.height }
        ensures law { HeightLaw M.BLOCK self.now.height (length self.now.entries) }
    {
        self.tree.height()
    }

    /// The fold of all entries, which is stored; none exactly where there are no entries. O(1).
    pub fn aug(&self) -> Option<&M::Aug>
        ensures none { IsNone result ↔ (self.now.entries ≡ []) }
        ensures fold { IfSome result (λ aug. aug.now ≡ fold_of M.Augment.base_of M.Augment.unit_of M.Augment.combined self.now.entries) }
    {
        self.tree.aug()
    }
}

impl<M: Shape> Share for Map<M> {
    ghost never_refuses = { ⊥ };

    /// A map of the same entries, in O(1) and in the memory of this one.
    fn share(&self, alloc: Global) -> Result<Map<M>, NoMemory> {
        Map::from_tree(self.tree.share(alloc))
    }
}
