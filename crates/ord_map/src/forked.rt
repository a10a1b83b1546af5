//! The calls on whole maps that fork over the halves of their work. They are told where to run.
//!
//! Each answers what the call of its name without `_on` answers, whatever the runtime, the gate and the cut. A program with four
//! processors and no use for a gate says `On { rt, gate: &FreeGate, cut: Cut::new(4, 1024) }`: parts of 1024 entries and more
//! fork.
ghost use Rattle.std.specs.Prelude.{◌≡◌, IfOk, OnErr};
ghost use Rattle.std.specs.List.{filter as filtered};
ghost use Rattle.map_model.specs.Fold.{reduce};
ghost use Rattle.map_model.specs.Operations.{after, build, dels, puts};
ghost use Rattle.map_model.specs.SetOperations.{difference, intersect, union};

use crate::map::OrdMap;
use aug_map::PlainMap;
use aug_monoid::{NoMemory, Resolve, Second, SyncAugment, SyncReduce, Test};
use fork_join::{Gate, On};
use std::alloc::Global;
use std::marker::{Send, Sync};
use std::thread::Threads;

impl<A: SyncAugment> OrdMap<A> {
    /// `from_pairs`, in O(n log n) work for n pairs.
    ///
    ///     Sums::from_pairs_on(on, alloc, &[(2, 20), (1, 10), (2, 21)])?     // [(1, 10), (2, 21)]
    pub fn from_pairs_on<R: Threads + Sync, G: Gate>(
        on: On<R, G>,
        alloc: Global,
        pairs: &[(A::Key, A::Val)],
    ) -> Result<OrdMap<A>, NoMemory>
        ensures { IfOk result (λ map. map ≡ build A.Key.cmp pairs.now) }
    {
        let map = PlainMap::build(on.rt, alloc, on.gate, on.cut, pairs)?;
        Ok(OrdMap { map })
    }

    /// `extend`, in O(m log(m + n)) work for m pairs.
    ///
    ///     let mut map = Sums::from_pairs(alloc, &[(1, 10)])?;
    ///     map.extend_on(on, alloc, &[(2, 20), (1, 11)])?;     // map is [(1, 11), (2, 20)]
    pub fn extend_on<R: Threads + Sync, G: Gate>(
        &mut self,
        on: On<R, G>,
        alloc: Global,
        pairs: &[(A::Key, A::Val)],
    ) -> Result<(), NoMemory>
        ensures entries { IfOk result (λ _. self.new ≡ after A.Key.cmp self.old (puts pairs.now)) }
        ensures kept { OnErr result (self.new ≡ self.old) }
    {
        self.map = self.map.multi_put(on.rt, alloc, on.gate, on.cut, pairs)?;
        Ok(())
    }

    /// `remove_all`, in its work.
    ///
    ///     let mut map = Sums::from_pairs(alloc, &[(1, 10), (2, 20)])?;
    ///     map.remove_all_on(on, alloc, &[3, 1])?;     // map is [(2, 20)]
    pub fn remove_all_on<R: Threads + Sync, G: Gate>(
        &mut self,
        on: On<R, G>,
        alloc: Global,
        keys: &[A::Key],
    ) -> Result<(), NoMemory>
        ensures entries { IfOk result (λ _. self.new ≡ after A.Key.cmp self.old (dels keys.now)) }
        ensures kept { OnErr result (self.new ≡ self.old) }
    {
        self.map = self.map.multi_del(on.rt, alloc, on.gate, on.cut, keys)?;
        Ok(())
    }

    /// `append`, in its work.
    ///
    ///     let mut map = Sums::from_pairs(alloc, &[(1, 10)])?;
    ///     map.append_on(on, alloc, &Sums::from_pairs(alloc, &[(1, 11), (2, 20)])?)?;     // map is [(1, 11), (2, 20)]
    pub fn append_on<R: Threads + Sync, G: Gate>(
        &mut self,
        on: On<R, G>,
        alloc: Global,
        other: &OrdMap<A>,
    ) -> Result<(), NoMemory>
        ensures entries { IfOk result (λ _. self.new ≡ union A.Key.cmp (λ _ b. b) self.old other.now) }
        ensures kept { OnErr result (self.new ≡ self.old) }
    {
        self.map = self
            .map
            .union(on.rt, alloc, on.gate, on.cut, &other.map, &Second)?;
        Ok(())
    }

    /// `union`, in O(m log(n / m + 1)) work for maps of m and n entries, m at most n.
    ///
    ///     let map = Sums::from_pairs(alloc, &[(1, 10)])?;
    ///     let other = Sums::from_pairs(alloc, &[(1, 11), (2, 20)])?;
    ///     map.union_on(on, alloc, &other, &SatSum)?     // [(1, 21), (2, 20)]
    pub fn union_on<R: Threads + Sync, G: Gate, H: Resolve<A::Val> + Send + Sync>(
        &self,
        on: On<R, G>,
        alloc: Global,
        other: &OrdMap<A>,
        how: &H,
    ) -> Result<OrdMap<A>, NoMemory>
        ensures { IfOk result (λ both. both ≡ union A.Key.cmp (H.resolved how.now) self.now other.now) }
    {
        let map = self
            .map
            .union(on.rt, alloc, on.gate, on.cut, &other.map, how)?;
        Ok(OrdMap { map })
    }

    /// `intersection`, in the work of `union_on`.
    ///
    ///     let map = Sums::from_pairs(alloc, &[(1, 10), (2, 20)])?;
    ///     let other = Sums::from_pairs(alloc, &[(1, 11), (3, 30)])?;
    ///     map.intersection_on(on, alloc, &other, &First)?     // [(1, 10)]
    pub fn intersection_on<R: Threads + Sync, G: Gate, H: Resolve<A::Val> + Send + Sync>(
        &self,
        on: On<R, G>,
        alloc: Global,
        other: &OrdMap<A>,
        how: &H,
    ) -> Result<OrdMap<A>, NoMemory>
        ensures { IfOk result (λ both. both ≡ intersect A.Key.cmp (H.resolved how.now) self.now other.now) }
    {
        let map = self
            .map
            .intersect(on.rt, alloc, on.gate, on.cut, &other.map, how)?;
        Ok(OrdMap { map })
    }

    /// `difference`, in the work of `union_on`.
    ///
    ///     let map = Sums::from_pairs(alloc, &[(1, 10), (2, 20)])?;
    ///     let other = Sums::from_pairs(alloc, &[(1, 11), (3, 30)])?;
    ///     map.difference_on(on, alloc, &other)?     // [(2, 20)]
    pub fn difference_on<R: Threads + Sync, G: Gate>(
        &self,
        on: On<R, G>,
        alloc: Global,
        other: &OrdMap<A>,
    ) -> Result<OrdMap<A>, NoMemory>
        ensures { IfOk result (λ rest. rest ≡ difference A.Key.cmp self.now other.now) }
    {
        let map = self
            .map
            .difference(on.rt, alloc, on.gate, on.cut, &other.map)?;
        Ok(OrdMap { map })
    }

    /// `retain`, in O(n) work.
    ///
    ///     let mut map = Sums::from_pairs(alloc, &[(1, 10), (2, 20)])?;
    ///     map.retain_on(on, alloc, &AtLeast { least: 20 })?;     // map is [(2, 20)]
    pub fn retain_on<R: Threads + Sync, G: Gate, T: Test<A::Key, A::Val> + Send + Sync>(
        &mut self,
        on: On<R, G>,
        alloc: Global,
        test: &T,
    ) -> Result<(), NoMemory>
        ensures entries { IfOk result (λ _. self.new ≡ filtered (λ e. T.passes test.now e.0 e.1) self.old) }
        ensures kept { OnErr result (self.new ≡ self.old) }
    {
        self.map = self.map.filter(on.rt, alloc, on.gate, on.cut, test)?;
        Ok(())
    }

    /// `map_reduce`, in O(n) work.
    ///
    ///     let map = Sums::from_pairs(alloc, &[(1, 20), (2, 10)])?;
    ///     map.map_reduce_on(on, alloc, &Largest)?     // 20
    pub fn map_reduce_on<R: Threads + Sync, G: Gate, H: SyncReduce<A::Key, A::Val>>(
        &self,
        on: On<R, G>,
        alloc: Global,
        how: &H,
    ) -> Result<H::Out, NoMemory>
        ensures { IfOk result (λ out. out ≡ reduce (H.image_of how.now) (H.unit_of how.now) (H.combined how.now) self.now) }
    {
        self.map.map_reduce(on.rt, alloc, on.gate, on.cut, how)
    }
}
