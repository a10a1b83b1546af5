//! Operations on whole maps on one thread: each answers what the call of `bulk` without `_alone` does, and asks of keys, values,
//! folds and what is handed in nothing about threads.
ghost use Rattle.std.specs.Prelude.{◌≡◌, ◌+◌, ◌*◌, ◌≤◌, IfOk, length};
ghost use Rattle.std.specs.List.{filter as filtered};
ghost use Rattle.map_model.specs.Fold.{reduce};
ghost use Rattle.map_model.specs.Operations.{after, build, dels, puts};
ghost use Rattle.map_model.specs.SetOperations.{difference, intersect, union};

use crate::batches::{build_uncounted, multi_del_uncounted, multi_put_uncounted};
use crate::map::Map;
use aug_monoid::{NoMemory, Reduce, Resolve, Steps, Test};
use bulk_ops::{Combining, Differing, Intersecting, Uniting, shared_sides};
use bulk_passes::{Filtering, Reducing};
use fork_join::{divide_alone, divide_uncounted};
use std::alloc::Global;
use std::marker::Brand;
use std::sync::ledger::{Blank, Ledger};
use tree_shape::Shape;

impl<M: Shape> Map<M> {
    /// The map that pairs make, put in order into the empty map, so that a later pair of a key wins. O(n * log n) for n pairs.
    pub fn build_alone(alloc: Global, pairs: &[(M::Key, M::Val)]) -> Result<Map<M>, NoMemory>
        ensures { IfOk result (λ map. map.entries ≡ build M.Key.cmp pairs.now) }
    {
        build_uncounted::<M, Brand>(alloc, pairs, Blank::new(1))
    }

    /// The entries of either map. At a key of both the value is what `how` makes of the value here and the value in `b`.
    /// O(m * log(n / m + 1)) for maps of m and n entries, m at most n.
    pub fn union_alone<H: Resolve<M::Val>>(
        &self,
        alloc: Global,
        b: &Map<M>,
        how: &H,
    ) -> Result<Map<M>, NoMemory>
        ensures { IfOk result (λ map. map.entries ≡ union M.Key.cmp (H.resolved how.now) self.now.entries b.now.entries) }
    {
        let sides = shared_sides(alloc, &self.tree, &b.tree)?;
        let uniting = Combining {
            how: &Uniting { how },
        };
        Map::from_tree(divide_uncounted(alloc, &uniting, sides))
    }

    /// The entries whose keys both maps have, with what `how` makes of the value here and the value in `b`.
    /// O(m * log(n / m + 1)) for maps of m and n entries, m at most n.
    pub fn intersect_alone<H: Resolve<M::Val>>(
        &self,
        alloc: Global,
        b: &Map<M>,
        how: &H,
    ) -> Result<Map<M>, NoMemory>
        ensures { IfOk result (λ map. map.entries ≡ intersect M.Key.cmp (H.resolved how.now) self.now.entries b.now.entries) }
    {
        let sides = shared_sides(alloc, &self.tree, &b.tree)?;
        let intersecting = Combining {
            how: &Intersecting { how },
        };
        Map::from_tree(divide_uncounted(alloc, &intersecting, sides))
    }

    /// The entries whose keys `b` hasn't. O(m * log(n / m + 1)) for maps of m and n entries, m at most n.
    pub fn difference_alone(&self, alloc: Global, b: &Map<M>) -> Result<Map<M>, NoMemory>
        ensures { IfOk result (λ map. map.entries ≡ difference M.Key.cmp self.now.entries b.now.entries) }
    {
        let sides = shared_sides(alloc, &self.tree, &b.tree)?;
        Map::from_tree(divide_uncounted(alloc, &Combining { how: &Differing }, sides))
    }

    /// The map after all puts in order, so that a later pair of a key wins. O(k * log k + k * log(n / k + 1)) for k pairs and a map
    /// of n entries.
    pub fn multi_put_alone(
        &self,
        alloc: Global,
        pairs: &[(M::Key, M::Val)],
    ) -> Result<Map<M>, NoMemory>
        ensures { IfOk result (λ map. map.entries ≡ after M.Key.cmp self.now.entries (puts pairs.now)) }
    {
        multi_put_uncounted::<M, Brand>(alloc, self, pairs, Blank::new(1))
    }

    /// The map without these keys; keys that it hasn't change nothing. O(k * log n) for k keys and a map of n entries.
    pub fn multi_del_alone(&self, alloc: Global, keys: &[M::Key]) -> Result<Map<M>, NoMemory>
        ensures { IfOk result (λ map. map.entries ≡ after M.Key.cmp self.now.entries (dels keys.now)) }
    {
        multi_del_uncounted::<M, Brand>(alloc, self, keys, Blank::new(1))
    }

    /// The map of the entries that hold. O(n) for a map of n entries.
    pub fn filter_alone<T: Test<M::Key, M::Val>>(
        &self,
        alloc: Global,
        test: &T,
    ) -> Result<Map<M>, NoMemory>
        ensures { IfOk result (λ map. map.entries ≡ filtered (λ e. T.passes test.now e.0 e.1) self.now.entries) }
    {
        let tree = divide_uncounted(alloc, &Filtering { test }, &self.tree)?;
        Ok(Map { tree })
    }

    /// `filter_alone` with its tests counted: each is a step, at most n for a map of n entries. What the answer's trees and their
    /// joins combine is not counted.
    pub fn filter_counted<T: Test<M::Key, M::Val>, C: Ledger>(
        &self,
        alloc: Global,
        test: &T,
        steps: &mut Steps<C>,
    ) -> Result<Map<M>, NoMemory>
        ensures entries { IfOk result (λ map. map.entries ≡ filtered (λ e. T.passes test.now e.0 e.1) self.now.entries) }
        ensures cost { IfOk result (λ _. steps.new ≤ steps.old + length self.now.entries) }
    {
        let tree = divide_alone(alloc, &Filtering { test }, &self.tree, steps)?;
        Ok(Map { tree })
    }

    /// What `how` makes of each entry, combined in the order of the keys, and its unit for no entries. O(n) for a map of n entries.
    pub fn map_reduce_alone<H: Reduce<M::Key, M::Val>>(
        &self,
        alloc: Global,
        how: &H,
    ) -> Result<H::Out, NoMemory>
        ensures { IfOk result (λ out. out ≡ reduce (H.image_of how.now) (H.unit_of how.now) (H.combined how.now) self.now.entries) }
    {
        divide_uncounted(alloc, &Reducing { how }, &self.tree)
    }

    /// `map_reduce_alone` with its combinations counted: each is a step, at most 2 * n for a map of n entries.
    pub fn map_reduce_counted<H: Reduce<M::Key, M::Val>, C: Ledger>(
        &self,
        alloc: Global,
        how: &H,
        steps: &mut Steps<C>,
    ) -> Result<H::Out, NoMemory>
        ensures value { IfOk result (λ out. out ≡ reduce (H.image_of how.now) (H.unit_of how.now) (H.combined how.now) self.now.entries) }
        ensures cost { IfOk result (λ _. steps.new ≤ steps.old + 2 * length self.now.entries) }
    {
        divide_alone(alloc, &Reducing { how }, &self.tree, steps)
    }
}
