//! Questions to maps: folds of ranges, places of keys, neighbours, and parts.
ghost use Rattle.std.specs.Prelude.{◌≡◌, ℕ, ◌+◌, ◌*◌, ◌≤◌, IfOk, IsOk, length};
ghost use Rattle.aug_monoid.specs.Images.{AreImageCosts, project_cost};
ghost use Rattle.map_model.specs.Entries.{above, below};
ghost use Rattle.map_model.specs.Fold.{aug_filter, fold_of, project, range_fold};
ghost use Rattle.map_model.specs.Parts.{left_of, next, prev, rank, right_of, select, slice};

use crate::map::Map;
use aug_monoid::{AugTest, Augment, NoMemory, Project, Steps};
use std::alloc::Global;
use std::sync::ledger::Ledger;
use tree_shape::Shape;
use tree_walk::is_key_at;

impl<M: Shape> Map<M> {
    /// The fold of the entries with keys at most `key`, in at most `8 * height + 16 * B` steps. It takes no memory, and refuses
    /// nothing, where the `Augment` never refuses.
    pub fn aug_left<C: Ledger>(
        &self,
        alloc: Global,
        key: &M::Key,
        steps: &mut Steps<C>,
    ) -> Result<M::Aug, NoMemory>
        ensures value { IfOk result (λ aug. aug ≡ fold_of M.Augment.base_of M.Augment.unit_of M.Augment.combined (left_of M.Key.cmp self.now.entries key.now)) }
        ensures succeeds { M.Augment.never_refuses → IsOk result }
        ensures cost { steps.new ≤ steps.old + (8 * self.now.height + 16 * M.BLOCK) }
    {
        tree_query::aug_left(alloc, &self.tree, key, steps)
    }

    /// The fold of the entries with keys at least `key`, in at most `8 * height + 16 * B` steps. It takes no memory, and refuses
    /// nothing, where the `Augment` never refuses.
    pub fn aug_right<C: Ledger>(
        &self,
        alloc: Global,
        key: &M::Key,
        steps: &mut Steps<C>,
    ) -> Result<M::Aug, NoMemory>
        ensures value { IfOk result (λ aug. aug ≡ fold_of M.Augment.base_of M.Augment.unit_of M.Augment.combined (right_of M.Key.cmp self.now.entries key.now)) }
        ensures succeeds { M.Augment.never_refuses → IsOk result }
        ensures cost { steps.new ≤ steps.old + (8 * self.now.height + 16 * M.BLOCK) }
    {
        tree_query::aug_right(alloc, &self.tree, key, steps)
    }

    /// The fold of the entries with keys from `lo` to `hi`, both included, in at most `8 * height + 16 * B` steps. It takes no
    /// memory, and refuses nothing, where the `Augment` never refuses.
    pub fn aug_range<C: Ledger>(
        &self,
        alloc: Global,
        lo: &M::Key,
        hi: &M::Key,
        steps: &mut Steps<C>,
    ) -> Result<M::Aug, NoMemory>
        ensures value { IfOk result (λ aug. aug ≡ range_fold M.Key.cmp M.Augment.base_of M.Augment.unit_of M.Augment.combined self.now.entries lo.now hi.now) }
        ensures succeeds { M.Augment.never_refuses → IsOk result }
        ensures cost { steps.new ≤ steps.old + (8 * self.now.height + 16 * M.BLOCK) }
    {
        tree_query::aug_range(alloc, &self.tree, lo, hi, steps)
    }

    /// The map of the entries whose base values pass. It passes over each part whose fold fails the test, so its time goes with
    /// the number of entries that pass.
    pub fn aug_filter<T: AugTest<M::Augment>>(
        &self,
        alloc: Global,
        test: &T,
    ) -> Result<Map<M>, NoMemory>
        ensures { IfOk result (λ map. map.entries ≡ aug_filter M.Augment.base_of (T.admits test.now) self.now.entries) }
    {
        Map::from_tree(tree_filter::aug_filter(alloc, &self.tree, test))
    }

    /// `aug_filter` with its tests counted: each is a step, at most `1 + k * (3 * height + 2 * B)` where k entries pass.
    pub fn aug_filter_counted<T: AugTest<M::Augment>, C: Ledger>(
        &self,
        alloc: Global,
        test: &T,
        tests: &mut Steps<C>,
    ) -> Result<Map<M>, NoMemory>
        ensures entries { IfOk result (λ map. map.entries ≡ aug_filter M.Augment.base_of (T.admits test.now) self.now.entries) }
        ensures cost { tests.new ≤ tests.old + (1 + length (aug_filter M.Augment.base_of (T.admits test.now) self.now.entries) * (3 * self.now.height + 2 * M.BLOCK)) }
    {
        Map::from_tree(tree_filter::aug_filter_counted(alloc, &self.tree, test, tests))
    }

    /// The first entry whose base value passes; none exactly where no entry's does. It passes over each part whose fold fails the
    /// test, so it takes time in O(height + B) where a fold passes exactly when some entry below it does. It takes no memory where
    /// augmented values and the shares of keys and values take none.
    pub fn first_where<T: AugTest<M::Augment>>(
        &self,
        alloc: Global,
        test: &T,
    ) -> Result<Option<(M::Key, M::Val)>, NoMemory>
        ensures value { IfOk result (λ found. found ≡ select (aug_filter M.Augment.base_of (T.admits test.now) self.now.entries) 0) }
        ensures succeeds { M.Augment.never_refuses → M.Key.never_refuses → M.Val.never_refuses → IsOk result }
    {
        tree_filter::first_where(alloc, &self.tree, test)
    }

    /// `first_where` with its tests counted: each is a step, at most `3 * height + 2 * B + 1`.
    pub fn first_where_counted<T: AugTest<M::Augment>, C: Ledger>(
        &self,
        alloc: Global,
        test: &T,
        tests: &mut Steps<C>,
    ) -> Result<Option<(M::Key, M::Val)>, NoMemory>
        ensures value { IfOk result (λ found. found ≡ select (aug_filter M.Augment.base_of (T.admits test.now) self.now.entries) 0) }
        ensures succeeds { M.Augment.never_refuses → M.Key.never_refuses → M.Val.never_refuses → IsOk result }
        ensures cost { tests.new ≤ tests.old + (3 * self.now.height + 2 * M.BLOCK + 1) }
    {
        tree_filter::first_where_counted(alloc, &self.tree, test, tests)
    }

    /// The image of the fold of the entries with keys from `lo` to `hi`, both included. It is combined from images of stored folds and
    /// of single entries; no two augmented values are combined. O(log n + B) images in a map of n entries.
    pub fn aug_project<P: Project<M::Augment>>(
        &self,
        alloc: Global,
        lo: &M::Key,
        hi: &M::Key,
        how: &P,
    ) -> Result<P::Out, NoMemory>
        ensures { IfOk result (λ out. out ≡ project M.Key.cmp M.Augment.base_of M.Augment.unit_of M.Augment.combined (P.image_of how.now) self.now.entries lo.now hi.now) }
    {
        tree_query::aug_project(alloc, &self.tree, lo, hi, how)
    }

    /// `aug_project` with its images counted: each is a step, at most `4 * height + 4 * B + 1`.
    pub fn aug_project_counted<P: Project<M::Augment>, C: Ledger>(
        &self,
        alloc: Global,
        lo: &M::Key,
        hi: &M::Key,
        how: &P,
        images: &mut Steps<C>,
    ) -> Result<P::Out, NoMemory>
        ensures value { IfOk result (λ out. out ≡ project M.Key.cmp M.Augment.base_of M.Augment.unit_of M.Augment.combined (P.image_of how.now) self.now.entries lo.now hi.now) }
        ensures cost { images.new ≤ images.old + (4 * self.now.height + 4 * M.BLOCK + 1) }
    {
        tree_query::aug_project_counted(alloc, &self.tree, lo, hi, how, images)
    }

    /// `aug_project` with its steps counted, and those that its images take: where `most` are enough for the image of the fold of
    /// any at most as many entries, at most `(4 * height + 4 * B + 1) * most + (2 * height + 4 * B)`.
    pub fn aug_project_in_steps<P: Project<M::Augment>, C: Ledger>(
        &self,
        alloc: Global,
        lo: &M::Key,
        hi: &M::Key,
        how: &P,
        steps: &mut Steps<C>,
    ) -> Result<P::Out, NoMemory>
        ensures value { IfOk result (λ out. out ≡ project M.Key.cmp M.Augment.base_of M.Augment.unit_of M.Augment.combined (P.image_of how.now) self.now.entries lo.now hi.now) }
        ensures cost { (most : ℕ) → AreImageCosts M.Augment.base_of M.Augment.unit_of M.Augment.combined (P.IsImageCost how.now) (length self.now.entries) most → steps.new ≤ steps.old + project_cost M.BLOCK self.now.height most }
    {
        tree_query::aug_project_in_steps(alloc, &self.tree, lo, hi, how, steps)
    }

    /// How many keys are less than `key`, in at most `height + M::Leaf::FIND` steps. It takes no memory.
    pub fn rank<C: Ledger>(&self, key: &M::Key, steps: &mut Steps<C>) -> u64
        ensures value { result ≡ rank M.Key.cmp self.now.entries key.now }
        ensures cost { steps.new ≤ steps.old + (self.now.height + M.Leaf.FIND) }
    {
        tree_query::rank(&self.tree, key, steps)
    }

    /// How many keys are at most `key`, in at most `height + M::Leaf::FIND + 1` steps. It takes no memory.
    pub fn count_to<C: Ledger>(&self, key: &M::Key, steps: &mut Steps<C>) -> u64
        ensures value { result ≡ length (left_of M.Key.cmp self.now.entries key.now) }
        ensures cost { steps.new ≤ steps.old + (self.now.height + M.Leaf.FIND + 1) }
    {
        let before = self.rank(key, steps);
        if before >= self.size() {
            return before;
        }
        if is_key_at(&self.tree, before, key, steps) {
            before + 1
        } else {
            before
        }
    }

    /// The entry at a place, counted from 0, in time linear in the height; none exactly where there are at most `at` entries. It
    /// takes no memory where the shares of keys and values take none.
    pub fn select(&self, alloc: Global, at: u64) -> Result<Option<(M::Key, M::Val)>, NoMemory>
        ensures value { IfOk result (λ entry. entry ≡ select self.now.entries at) }
        ensures succeeds { M.Key.never_refuses → M.Val.never_refuses → IsOk result }
    {
        tree_query::select(alloc, &self.tree, at)
    }

    /// The entry with the least key greater than `key`; none exactly where no key is greater. At most `height + M::Leaf::FIND` steps. It
    /// takes no memory where the shares of keys and values take none.
    pub fn next<C: Ledger>(
        &self,
        alloc: Global,
        key: &M::Key,
        steps: &mut Steps<C>,
    ) -> Result<Option<(M::Key, M::Val)>, NoMemory>
        ensures value { IfOk result (λ entry. entry ≡ next M.Key.cmp self.now.entries key.now) }
        ensures succeeds { M.Key.never_refuses → M.Val.never_refuses → IsOk result }
        ensures cost { steps.new ≤ steps.old + (self.now.height + M.Leaf.FIND) }
    {
        tree_query::next(alloc, &self.tree, key, steps)
    }

    /// The entry with the greatest key less than `key`; none exactly where no key is less. At most `height + M::Leaf::FIND` steps. It takes
    /// no memory where the shares of keys and values take none.
    pub fn prev<C: Ledger>(
        &self,
        alloc: Global,
        key: &M::Key,
        steps: &mut Steps<C>,
    ) -> Result<Option<(M::Key, M::Val)>, NoMemory>
        ensures value { IfOk result (λ entry. entry ≡ prev M.Key.cmp self.now.entries key.now) }
        ensures succeeds { M.Key.never_refuses → M.Val.never_refuses → IsOk result }
        ensures cost { steps.new ≤ steps.old + (self.now.height + M.Leaf.FIND) }
    {
        tree_query::prev(alloc, &self.tree, key, steps)
    }

    /// The map of the entries with keys from `lo` to `hi`, both included, in time linear in the height; it is empty where `lo` is
    /// greater than `hi`.
    pub fn slice(&self, alloc: Global, lo: &M::Key, hi: &M::Key) -> Result<Map<M>, NoMemory>
        ensures { IfOk result (λ map. map.entries ≡ slice M.Key.cmp self.now.entries lo.now hi.now) }
    {
        Map::from_tree(tree_query::slice(alloc, &self.tree, lo, hi))
    }

    /// The map of the entries with keys less than `key`, in time linear in the height.
    pub fn below(&self, alloc: Global, key: &M::Key) -> Result<Map<M>, NoMemory>
        ensures { IfOk result (λ map. map.entries ≡ below M.Key.cmp self.now.entries key.now) }
    {
        Map::from_tree(tree_query::below(alloc, &self.tree, key))
    }

    /// The map of the entries with keys greater than `key`, in time linear in the height.
    pub fn above(&self, alloc: Global, key: &M::Key) -> Result<Map<M>, NoMemory>
        ensures { IfOk result (λ map. map.entries ≡ above M.Key.cmp self.now.entries key.now) }
    {
        Map::from_tree(tree_query::above(alloc, &self.tree, key))
    }

    /// The map of the entries with keys at least `key`, in time linear in the height.
    pub fn at_least(&self, alloc: Global, key: &M::Key) -> Result<Map<M>, NoMemory>
        ensures { IfOk result (λ map. map.entries ≡ right_of M.Key.cmp self.now.entries key.now) }
    {
        Map::from_tree(tree_query::at_least(alloc, &self.tree, key))
    }
}
