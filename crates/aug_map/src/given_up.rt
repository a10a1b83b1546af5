//! Operations on whole maps that are given up. What of a map has one owner is moved into the answer, and what has more is copied,
//! so that copies taken before stay as they were. A refusal gives the map up.
ghost use Rattle.std.specs.Prelude.{◌≡◌, IfOk};
ghost use Rattle.map_model.specs.Entries.{IsIncreasing};
ghost use Rattle.map_model.specs.Operations.{after, puts};
ghost use Rattle.map_model.specs.SetOperations.{union};

use crate::map::Map;
use aug_monoid::{NoMemory, Resolve, Second};
use bulk_changes::{IntoShape, SyncIntoShape, UnitingInto};
use fork_join::{Cut, Gate, On, divide, divide_uncounted};
use sorted_lists::{last_of_each_key, last_of_each_key_alone};
use std::alloc::Global;
use std::marker::{Send, Sync};
use std::mem;
use std::thread::Threads;
use tree_shape::Tree;

impl<M: SyncIntoShape> Map<M> {
    /// The entries of this map or the list. At a key of both the value is what `how` makes of the value here and the value in the
    /// list, whose entries are shared. For a list of k entries and a map of n, O(k * log(n / k + 1)) work.
    pub fn union_into<R: Threads + Sync, G: Gate, H: Resolve<M::Val> + Send + Sync>(
        self,
        rt: &R,
        alloc: Global,
        gate: &G,
        cut: Cut,
        list: &[(M::Key, M::Val)],
        how: &H,
    ) -> Result<Map<M>, NoMemory>
        requires increasing { IsIncreasing M.Key.cmp list.now }
        ensures { IfOk result (λ map. map.entries ≡ union M.Key.cmp (H.resolved how.now) self.entries list.now) }
    {
        let tree = self.into_tree();
        Map::from_tree(divide(
            On { rt, gate, cut },
            alloc,
            &UnitingInto { how },
            (tree, list),
        ))
    }

    /// The map after all puts in order, so that a later pair of a key wins. O(k * log k + k * log(n / k + 1)) work for k pairs and
    /// a map of n entries.
    pub fn multi_put_into<R: Threads + Sync, G: Gate>(
        self,
        rt: &R,
        alloc: Global,
        gate: &G,
        cut: Cut,
        pairs: &[(M::Key, M::Val)],
    ) -> Result<Map<M>, NoMemory>
        ensures { IfOk result (λ map. map.entries ≡ after M.Key.cmp self.entries (puts pairs.now)) }
    {
        let _size = self.size(); // for the proof alone: keys rise
        let batch = last_of_each_key(rt, alloc, pairs)?;
        self.union_into(rt, alloc, gate, cut, &batch, &Second)
    }
}

impl<M: IntoShape> Map<M> {
    /// The tree of the map.
    fn into_tree(self) -> Tree<M>
        ensures { result ≡ self }
    {
        let mut map = self;
        mem::replace(&mut map.tree, Tree::empty())
    }

    /// `union_into` on one thread, which asks of keys, values, folds and of `how` nothing about threads. For a list of k entries
    /// and a map of n, O(k * log(n / k + 1)).
    pub fn union_into_alone<H: Resolve<M::Val>>(
        self,
        alloc: Global,
        list: &[(M::Key, M::Val)],
        how: &H,
    ) -> Result<Map<M>, NoMemory>
        requires increasing { IsIncreasing M.Key.cmp list.now }
        ensures { IfOk result (λ map. map.entries ≡ union M.Key.cmp (H.resolved how.now) self.entries list.now) }
    {
        let tree = self.into_tree();
        Map::from_tree(divide_uncounted(alloc, &UnitingInto { how }, (tree, list)))
    }

    /// `multi_put_into` on one thread, which asks of keys, values and folds nothing about threads.
    /// O(k * log k + k * log(n / k + 1)) for k pairs and a map of n entries.
    pub fn multi_put_into_alone(
        self,
        alloc: Global,
        pairs: &[(M::Key, M::Val)],
    ) -> Result<Map<M>, NoMemory>
        ensures { IfOk result (λ map. map.entries ≡ after M.Key.cmp self.entries (puts pairs.now)) }
    {
        let _size = self.size(); // for the proof alone: keys rise
        let batch = last_of_each_key_alone(alloc, pairs)?;
        self.union_into_alone(alloc, &batch, &Second)
    }
}
