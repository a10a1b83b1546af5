//! Changes of one entry.
ghost use Rattle.std.specs.Prelude.{◌≡◌, [], ◌∷◌, IfOk, OnErr};
ghost use Rattle.map_model.specs.Entries.{drop_key, lookup, set};
ghost use Rattle.map_model.specs.SetOperations.{union};

use crate::counters;
use crate::map::OrdMap;
use aug_monoid::{Augment, NoMemory, Resolve};
use std::alloc::Global;
use std::marker::Brand;
use std::sync::ledger::Blank;

impl<A: Augment> OrdMap<A> {
    /// Sets a key to a value, in O(log n). Where the `Augment` is total, a node or block that no other map has part in is changed
    /// where it stands, if the node stays balanced; from the first one on that can't be, the path is copied.
    ///
    ///     let mut map = Sums::from_pairs(alloc, &[(1, 10)])?;
    ///     map.put(alloc, 1, 11)?;     // map is [(1, 11)]
    pub fn put(&mut self, alloc: Global, key: A::Key, val: A::Val) -> Result<(), NoMemory>
        ensures entries { IfOk result (λ _. self.new ≡ set A.Key.cmp self.old key val) }
        ensures kept { OnErr result (self.new ≡ self.old) }
    {
        counters::put::<A, Brand>(alloc, &mut self.map, key, val, Blank::new(1))
    }

    /// Sets a key to a value, as `put` does, and answers the value that it had. It goes down once where `put` changes the map in place;
    /// a part that is copied is looked through for the value first.
    ///
    ///     let mut map = Sums::from_pairs(alloc, &[(1, 10)])?;
    ///     let old = map.insert(alloc, 1, 11)?;     // old is Some(10), map is [(1, 11)]
    pub fn insert(
        &mut self,
        alloc: Global,
        key: A::Key,
        val: A::Val,
    ) -> Result<Option<A::Val>, NoMemory>
        ensures value { IfOk result (λ old. old ≡ lookup A.Key.cmp self.old key) }
        ensures entries { IfOk result (λ _. self.new ≡ set A.Key.cmp self.old key val) }
        ensures kept { OnErr result (self.new ≡ self.old) }
    {
        counters::insert::<A, Brand>(alloc, &mut self.map, key, val, Blank::new(1))
    }

    /// Removes a key, which the map need not have, in O(log n): where it stands in the same cases as `put`, but for the entry of a
    /// node, which always goes by a copy.
    ///
    ///     let mut map = Sums::from_pairs(alloc, &[(1, 10), (2, 20)])?;
    ///     map.del(alloc, &1)?;     // map is [(2, 20)]
    pub fn del(&mut self, alloc: Global, key: &A::Key) -> Result<(), NoMemory>
        ensures entries { IfOk result (λ _. self.new ≡ drop_key A.Key.cmp self.old key.now) }
        ensures kept { OnErr result (self.new ≡ self.old) }
    {
        counters::del::<A, Brand>(alloc, &mut self.map, key, Blank::new(1))
    }

    /// Removes a key, as `del` does, and answers the value that it had. Of a key that is not there, nothing is copied.
    ///
    ///     let mut map = Sums::from_pairs(alloc, &[(1, 10), (2, 20)])?;
    ///     let old = map.remove(alloc, &1)?;     // old is Some(10), map is [(2, 20)]
    pub fn remove(&mut self, alloc: Global, key: &A::Key) -> Result<Option<A::Val>, NoMemory>
        ensures value { IfOk result (λ old. old ≡ lookup A.Key.cmp self.old key.now) }
        ensures entries { IfOk result (λ _. self.new ≡ drop_key A.Key.cmp self.old key.now) }
        ensures kept { OnErr result (self.new ≡ self.old) }
    {
        let _number = self.len(); // for the proof alone: keys rise
        let Some(old) = self.get(alloc, key)? else {
            return Ok(None);
        };
        self.del(alloc, key)?;
        Ok(Some(old))
    }

    /// Sets a key to what `how` makes of its value and `val`, or to `val` where the key is new, in O(log n), and in place where
    /// `put` is. After a refusal the map is as it was.
    ///
    ///     let mut map = Sums::from_pairs(alloc, &[(1, 10)])?;
    ///     map.put_with(alloc, 1, 5, &SatSum)?;     // map is [(1, 15)]
    pub fn put_with<H: Resolve<A::Val>>(
        &mut self,
        alloc: Global,
        key: A::Key,
        val: A::Val,
        how: &H,
    ) -> Result<(), NoMemory>
        ensures entries { IfOk result (λ _. self.new ≡ union A.Key.cmp (H.resolved how.now) self.old ((key, val) ∷ [])) }
        ensures kept { OnErr result (self.new ≡ self.old) }
    {
        counters::put_with::<A, H, Brand>(alloc, &mut self.map, key, val, how, Blank::new(1))
    }
}
