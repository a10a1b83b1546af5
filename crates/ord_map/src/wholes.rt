//! Whole maps: of pairs, of two maps, and of the entries that pass a test.
ghost use Rattle.std.specs.Prelude.{◌≡◌, ◌↔◌, [], IfOk, IsTrue, OnErr};
ghost use Rattle.map_model.specs.Operations.{after, build, puts};
ghost use Rattle.map_model.specs.SetOperations.{difference, intersect, union};
ghost use Rattle.std.specs.List.{filter as filtered, fold};
ghost use Rattle.ord_map.specs.Apart.{symmetric_difference};

use crate::map::OrdMap;
use crate::united::{is_faster_in_turn, union_by_sort, union_in_turn};
use aug_map::PlainMap;
use aug_monoid::{Augment, First, NoMemory, Resolve, Second, Test};
use std::alloc::Global;

impl<A: Augment> OrdMap<A> {
    /// The map that pairs make, put in order into the empty map, so that a later pair of a key wins. For n pairs it takes
    /// O(n log n).
    ///
    ///     Sums::from_pairs(alloc, &[(2, 20), (1, 10), (2, 21)])?     // [(1, 10), (2, 21)]
    pub fn from_pairs(alloc: Global, pairs: &[(A::Key, A::Val)]) -> Result<OrdMap<A>, NoMemory>
        ensures { IfOk result (λ map. map ≡ build A.Key.cmp pairs.now) }
    {
        let map = PlainMap::build_alone(alloc, pairs)?;
        Ok(OrdMap { map })
    }

    /// Puts pairs in order, so that a later pair of a key wins. For m pairs it takes O(m log(m + n)).
    ///
    ///     let mut map = Sums::from_pairs(alloc, &[(1, 10)])?;
    ///     map.extend(alloc, &[(2, 20), (1, 11)])?;     // map is [(1, 11), (2, 20)]
    pub fn extend(&mut self, alloc: Global, pairs: &[(A::Key, A::Val)]) -> Result<(), NoMemory>
        ensures entries { IfOk result (λ _. self.new ≡ after A.Key.cmp self.old (puts pairs.now)) }
        ensures kept { OnErr result (self.new ≡ self.old) }
    {
        self.map = self.map.multi_put_alone(alloc, pairs)?;
        Ok(())
    }

    /// Puts the entries of another map, whose values win. For maps of m and n entries, m at most n, it takes
    /// O(m log(n / m + 1)).
    ///
    ///     let mut map = Sums::from_pairs(alloc, &[(1, 10)])?;
    ///     map.append(alloc, &Sums::from_pairs(alloc, &[(1, 11), (2, 20)])?)?;     // map is [(1, 11), (2, 20)]
    pub fn append(&mut self, alloc: Global, other: &OrdMap<A>) -> Result<(), NoMemory>
        ensures entries { IfOk result (λ _. self.new ≡ union A.Key.cmp (λ _ b. b) self.old other.now) }
        ensures kept { OnErr result (self.new ≡ self.old) }
    {
        self.map = self.map.union_alone(alloc, &other.map, &Second)?;
        Ok(())
    }

    /// The entries of either map; at a key of both with what `how` makes of the value here and the value in `other`. For maps
    /// of m and n entries, m at most n, it takes O(m log(n / m + 1)).
    ///
    ///     let map = Sums::from_pairs(alloc, &[(1, 10)])?;
    ///     let other = Sums::from_pairs(alloc, &[(1, 11), (2, 20)])?;
    ///     map.union(alloc, &other, &SatSum)?     // [(1, 21), (2, 20)]
    pub fn union<H: Resolve<A::Val>>(
        &self,
        alloc: Global,
        other: &OrdMap<A>,
        how: &H,
    ) -> Result<OrdMap<A>, NoMemory>
        ensures { IfOk result (λ both. both ≡ union A.Key.cmp (H.resolved how.now) self.now other.now) }
    {
        let map = self.map.union_alone(alloc, &other.map, how)?;
        Ok(OrdMap { map })
    }

    /// The union of all maps, taken one after the other from the empty map on, with what `how` makes of the value so far and the
    /// value in the next map at a key that both have. For k maps of n entries in all it takes O(k + n log n): it sorts lists of
    /// entries, in which each map's are in order already, and makes the tree once. A list has at most 9 times as many entries as the
    /// answer. Where one map has at least as many entries as all others, or the keys of each are below those of the next, it takes
    /// k times `union` instead, and lists nothing.
    ///
    ///     let map = Sums::from_pairs(alloc, &[(1, 10)])?;
    ///     let other = Sums::from_pairs(alloc, &[(1, 11), (2, 20)])?;
    ///     Sums::union_all(alloc, &[map, other], &Second)?     // [(1, 11), (2, 20)]
    pub fn union_all<H: Resolve<A::Val>>(
        alloc: Global,
        maps: &[OrdMap<A>],
        how: &H,
    ) -> Result<OrdMap<A>, NoMemory>
        ensures { IfOk result (λ all. all ≡ fold (λ all map. union A.Key.cmp (H.resolved how.now) all map) [] maps.now) }
    {
        if is_faster_in_turn(alloc, maps)? {
            return union_in_turn(alloc, maps, how);
        }
        union_by_sort(alloc, maps, how)
    }

    /// The entries whose keys both maps have, with what `how` makes of the value here and the value in `other`, in the time of
    /// `union`.
    ///
    ///     let map = Sums::from_pairs(alloc, &[(1, 10), (2, 20)])?;
    ///     let other = Sums::from_pairs(alloc, &[(1, 11), (3, 30)])?;
    ///     map.intersection(alloc, &other, &First)?     // [(1, 10)]
    pub fn intersection<H: Resolve<A::Val>>(
        &self,
        alloc: Global,
        other: &OrdMap<A>,
        how: &H,
    ) -> Result<OrdMap<A>, NoMemory>
        ensures { IfOk result (λ both. both ≡ intersect A.Key.cmp (H.resolved how.now) self.now other.now) }
    {
        let map = self.map.intersect_alone(alloc, &other.map, how)?;
        Ok(OrdMap { map })
    }

    /// The entries whose keys `other` hasn't, in the time of `union`.
    ///
    ///     let map = Sums::from_pairs(alloc, &[(1, 10), (2, 20)])?;
    ///     let other = Sums::from_pairs(alloc, &[(1, 11), (3, 30)])?;
    ///     map.difference(alloc, &other)?     // [(2, 20)]
    pub fn difference(&self, alloc: Global, other: &OrdMap<A>) -> Result<OrdMap<A>, NoMemory>
        ensures { IfOk result (λ rest. rest ≡ difference A.Key.cmp self.now other.now) }
    {
        let map = self.map.difference_alone(alloc, &other.map)?;
        Ok(OrdMap { map })
    }

    /// The entries of either map whose keys the other hasn't, in the time of `union`.
    ///
    ///     let map = Sums::from_pairs(alloc, &[(1, 10), (2, 20)])?;
    ///     let other = Sums::from_pairs(alloc, &[(1, 11), (3, 30)])?;
    ///     map.symmetric_difference(alloc, &other)?     // [(2, 20), (3, 30)]
    pub fn symmetric_difference(
        &self,
        alloc: Global,
        other: &OrdMap<A>,
    ) -> Result<OrdMap<A>, NoMemory>
        ensures { IfOk result (λ either. either ≡ symmetric_difference A.Key.cmp self.now other.now) }
    {
        let here = self.map.difference_alone(alloc, &other.map)?;
        let there = other.map.difference_alone(alloc, &self.map)?;
        let map = here.union_alone(alloc, &there, &First)?;
        Ok(OrdMap { map })
    }

    /// Whether `other` has all keys that this map has, in the time of `union`. It makes the map of those that `other` hasn't, and
    /// refuses for want of memory.
    ///
    ///     let map = Sums::from_pairs(alloc, &[(1, 10)])?;
    ///     let other = Sums::from_pairs(alloc, &[(1, 11), (2, 20)])?;
    ///     map.is_subset(alloc, &other)?     // true
    pub fn is_subset(&self, alloc: Global, other: &OrdMap<A>) -> Result<bool, NoMemory>
        ensures { IfOk result (λ yes. IsTrue yes ↔ (difference A.Key.cmp self.now other.now ≡ [])) }
    {
        let rest = self.map.difference_alone(alloc, &other.map)?;
        Ok(rest.aug().is_none())
    }

    /// Whether there is no key that both maps have, in the time of `union`. It makes the map of those that they have, and refuses
    /// for want of memory.
    ///
    ///     let map = Sums::from_pairs(alloc, &[(1, 10)])?;
    ///     let other = Sums::from_pairs(alloc, &[(1, 11), (2, 20)])?;
    ///     map.is_disjoint(alloc, &other)?     // false
    pub fn is_disjoint(&self, alloc: Global, other: &OrdMap<A>) -> Result<bool, NoMemory>
        ensures { IfOk result (λ yes. IsTrue yes ↔ (intersect A.Key.cmp (λ a _. a) self.now other.now ≡ [])) }
    {
        let both = self.map.intersect_alone(alloc, &other.map, &First)?;
        Ok(both.aug().is_none())
    }

    /// Keeps the entries that pass, in O(n).
    ///
    ///     let mut map = Sums::from_pairs(alloc, &[(1, 10), (2, 20)])?;
    ///     map.retain(alloc, &AtLeast { least: 20 })?;     // map is [(2, 20)]
    pub fn retain<T: Test<A::Key, A::Val>>(
        &mut self,
        alloc: Global,
        test: &T,
    ) -> Result<(), NoMemory>
        ensures entries { IfOk result (λ _. self.new ≡ filtered (λ e. T.passes test.now e.0 e.1) self.old) }
        ensures kept { OnErr result (self.new ≡ self.old) }
    {
        self.map = self.map.filter_alone(alloc, test)?;
        Ok(())
    }
}
