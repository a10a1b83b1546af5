//! Operations on whole maps, which fork over the halves of their work where the cut allows it.
//!
//! The answers depend neither on the runtime nor on the gate nor on the cut; `alone` has the same calls on one thread.
ghost use Rattle.std.specs.Prelude.{◌≡◌, IfOk};
ghost use Rattle.std.specs.List.{filter as filtered};
ghost use Rattle.map_model.specs.Fold.{reduce};
ghost use Rattle.map_model.specs.Operations.{after, build, dels, puts};
ghost use Rattle.map_model.specs.SetOperations.{difference, intersect, union};

use crate::finding::entries_at;
use crate::map::Map;
use aug_monoid::{NoMemory, Resolve, Second, SyncReduce, Test};
use bulk_ops::{Combining, Differing, Intersecting, Uniting, shared_sides};
use bulk_passes::{Filtering, Planting, Reducing};
use fork_join::{Cut, Gate, On, divide};
use sorted_lists::last_of_each_key;
use std::alloc::Global;
use std::marker::{Send, Sync};
use std::thread::Threads;
use tree_shape::SyncShape;

impl<M: SyncShape> Map<M> {
    /// The map that pairs make, put in order into the empty map, so that a later pair of a key wins. O(n * log n) work for n
    /// pairs.
    pub fn build<R: Threads + Sync, G: Gate>(
        rt: &R,
        alloc: Global,
        gate: &G,
        cut: Cut,
        pairs: &[(M::Key, M::Val)],
    ) -> Result<Map<M>, NoMemory>
        ensures { IfOk result (λ map. map.entries ≡ build M.Key.cmp pairs.now) }
    {
        let entries = last_of_each_key(rt, alloc, pairs)?;
        Map::from_tree(divide(On { rt, gate, cut }, alloc, &Planting, entries.as_slice()))
    }

    /// The entries of either map. At a key of both the value is what `how` makes of the value here and the value in `b`. For maps
    /// of m and n entries, m at most n, it takes about m * log(n / m + 1) work.
    pub fn union<R: Threads + Sync, G: Gate, H: Resolve<M::Val> + Send + Sync>(
        &self,
        rt: &R,
        alloc: Global,
        gate: &G,
        cut: Cut,
        b: &Map<M>,
        how: &H,
    ) -> Result<Map<M>, NoMemory>
        ensures { IfOk result (λ map. map.entries ≡ union M.Key.cmp (H.resolved how.now) self.now.entries b.now.entries) }
    {
        let sides = shared_sides(alloc, &self.tree, &b.tree)?;
        let uniting = Combining {
            how: &Uniting { how },
        };
        Map::from_tree(divide(On { rt, gate, cut }, alloc, &uniting, sides))
    }

    /// The entries whose keys both maps have, with what `how` makes of the value here and the value in `b`, in the time of `union`.
    pub fn intersect<R: Threads + Sync, G: Gate, H: Resolve<M::Val> + Send + Sync>(
        &self,
        rt: &R,
        alloc: Global,
        gate: &G,
        cut: Cut,
        b: &Map<M>,
        how: &H,
    ) -> Result<Map<M>, NoMemory>
        ensures { IfOk result (λ map. map.entries ≡ intersect M.Key.cmp (H.resolved how.now) self.now.entries b.now.entries) }
    {
        let sides = shared_sides(alloc, &self.tree, &b.tree)?;
        let intersecting = Combining {
            how: &Intersecting { how },
        };
        Map::from_tree(divide(On { rt, gate, cut }, alloc, &intersecting, sides))
    }

    /// The entries whose keys `b` hasn't, in the time of `union`.
    pub fn difference<R: Threads + Sync, G: Gate>(
        &self,
        rt: &R,
        alloc: Global,
        gate: &G,
        cut: Cut,
        b: &Map<M>,
    ) -> Result<Map<M>, NoMemory>
        ensures { IfOk result (λ map. map.entries ≡ difference M.Key.cmp self.now.entries b.now.entries) }
    {
        let sides = shared_sides(alloc, &self.tree, &b.tree)?;
        let differing = Combining { how: &Differing };
        Map::from_tree(divide(On { rt, gate, cut }, alloc, &differing, sides))
    }

    /// The map after all puts in order, so that a later pair of a key wins. O(k * log k + k * log(n / k + 1)) work for k pairs
    /// and a map of n entries.
    pub fn multi_put<R: Threads + Sync, G: Gate>(
        &self,
        rt: &R,
        alloc: Global,
        gate: &G,
        cut: Cut,
        pairs: &[(M::Key, M::Val)],
    ) -> Result<Map<M>, NoMemory>
        ensures { IfOk result (λ map. map.entries ≡ after M.Key.cmp self.now.entries (puts pairs.now)) }
    {
        let _size = self.size(); // for the proof alone: keys rise
        let newer = Map::build(rt, alloc, gate, cut, pairs)?;
        self.union(rt, alloc, gate, cut, &newer, &Second)
    }

    /// The map without these keys; keys that it hasn't change nothing. O(k * log n) work for k keys and a map of n entries.
    pub fn multi_del<R: Threads + Sync, G: Gate>(
        &self,
        rt: &R,
        alloc: Global,
        gate: &G,
        cut: Cut,
        keys: &[M::Key],
    ) -> Result<Map<M>, NoMemory>
        ensures { IfOk result (λ map. map.entries ≡ after M.Key.cmp self.now.entries (dels keys.now)) }
    {
        let _size = self.size(); // for the proof alone: keys rise
        let found = entries_at(alloc, &self.tree, keys)?;
        let gone = Map::build(rt, alloc, gate, cut, &found)?;
        self.difference(rt, alloc, gate, cut, &gone)
    }

    /// The map of the entries that hold, in time linear in the number of entries.
    pub fn filter<R: Threads + Sync, G: Gate, T: Test<M::Key, M::Val> + Send + Sync>(
        &self,
        rt: &R,
        alloc: Global,
        gate: &G,
        cut: Cut,
        test: &T,
    ) -> Result<Map<M>, NoMemory>
        ensures { IfOk result (λ map. map.entries ≡ filtered (λ e. T.passes test.now e.0 e.1) self.now.entries) }
    {
        let tree = divide(On { rt, gate, cut }, alloc, &Filtering { test }, &self.tree)?;
        Ok(Map { tree })
    }

    /// What `how` makes of each entry, combined in the order of the keys, and its unit for no entries, in time linear in the number of
    /// entries.
    pub fn map_reduce<R: Threads + Sync, G: Gate, H: SyncReduce<M::Key, M::Val>>(
        &self,
        rt: &R,
        alloc: Global,
        gate: &G,
        cut: Cut,
        how: &H,
    ) -> Result<H::Out, NoMemory>
        ensures { IfOk result (λ out. out ≡ reduce (H.image_of how.now) (H.unit_of how.now) (H.combined how.now) self.now.entries) }
    {
        divide(On { rt, gate, cut }, alloc, &Reducing { how }, &self.tree)
    }
}
