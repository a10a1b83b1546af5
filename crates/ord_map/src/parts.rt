//! Parts of a map, and folds of them.
ghost use Rattle.std.specs.Prelude.{◌≡◌, IfOk, IsOk, OnErr};
ghost use Rattle.map_model.specs.Entries.{above, below};
ghost use Rattle.map_model.specs.Fold.{fold_of, range_fold};
ghost use Rattle.map_model.specs.Parts.{left_of, right_of, slice};

use crate::counters;
use crate::map::OrdMap;
use aug_monoid::{Augment, NoMemory};
use std::alloc::Global;
use std::marker::Brand;
use std::sync::ledger::Blank;

impl<A: Augment> OrdMap<A> {
    /// The map of the entries with keys from `lo` to `hi`, both included, in O(log n); it shares what it can with this one.
    ///
    ///     let map = Sums::from_pairs(alloc, &[(1, 10), (2, 20), (3, 30)])?;
    ///     map.range(alloc, &1, &2)?     // [(1, 10), (2, 20)]
    pub fn range(&self, alloc: Global, lo: &A::Key, hi: &A::Key) -> Result<OrdMap<A>, NoMemory>
        ensures { IfOk result (λ part. part ≡ slice A.Key.cmp self.now lo.now hi.now) }
    {
        let map = self.map.slice(alloc, lo, hi)?;
        Ok(OrdMap { map })
    }

    /// The map of the entries with keys less than `key`, in O(log n).
    ///
    ///     let map = Sums::from_pairs(alloc, &[(1, 10), (2, 20), (3, 30)])?;
    ///     map.below(alloc, &2)?     // [(1, 10)]
    pub fn below(&self, alloc: Global, key: &A::Key) -> Result<OrdMap<A>, NoMemory>
        ensures { IfOk result (λ part. part ≡ below A.Key.cmp self.now key.now) }
    {
        let map = self.map.below(alloc, key)?;
        Ok(OrdMap { map })
    }

    /// The map of the entries with keys greater than `key`, in O(log n).
    ///
    ///     let map = Sums::from_pairs(alloc, &[(1, 10), (2, 20), (3, 30)])?;
    ///     map.above(alloc, &2)?     // [(3, 30)]
    pub fn above(&self, alloc: Global, key: &A::Key) -> Result<OrdMap<A>, NoMemory>
        ensures { IfOk result (λ part. part ≡ above A.Key.cmp self.now key.now) }
    {
        let map = self.map.above(alloc, key)?;
        Ok(OrdMap { map })
    }

    /// The map of the entries with keys at least `key`, in O(log n).
    ///
    ///     let map = Sums::from_pairs(alloc, &[(1, 10), (2, 20), (3, 30)])?;
    ///     map.at_least(alloc, &2)?     // [(2, 20), (3, 30)]
    pub fn at_least(&self, alloc: Global, key: &A::Key) -> Result<OrdMap<A>, NoMemory>
        ensures { IfOk result (λ part. part ≡ right_of A.Key.cmp self.now key.now) }
    {
        let map = self.map.at_least(alloc, key)?;
        Ok(OrdMap { map })
    }

    /// Takes the entries with keys at least `key` out of the map, and answers them as a map of their own, in O(log n). After a
    /// refusal the map is as it was.
    ///
    ///     let mut map = Sums::from_pairs(alloc, &[(1, 10), (2, 20), (3, 30)])?;
    ///     let high = map.split_off(alloc, &2)?;     // high is [(2, 20), (3, 30)], map is [(1, 10)]
    pub fn split_off(&mut self, alloc: Global, key: &A::Key) -> Result<OrdMap<A>, NoMemory>
        ensures high { IfOk result (λ high. high ≡ right_of A.Key.cmp self.old key.now) }
        ensures low { IfOk result (λ _. self.new ≡ below A.Key.cmp self.old key.now) }
        ensures kept { OnErr result (self.new ≡ self.old) }
    {
        let high = self.at_least(alloc, key)?;
        self.map = self.map.below(alloc, key)?;
        Ok(high)
    }

    /// The fold of the entries with keys from `lo` to `hi`, both included, in O(log n), and the `Augment`'s unit where there
    /// are none. It refuses nothing where the `Augment` never refuses.
    ///
    ///     let map = Sums::from_pairs(alloc, &[(1, 10), (2, 20), (3, 30)])?;
    ///     map.fold_range(alloc, &1, &2)?.sum     // 30
    pub fn fold_range(&self, alloc: Global, lo: &A::Key, hi: &A::Key) -> Result<A::Aug, NoMemory>
        ensures value { IfOk result (λ aug. aug ≡ range_fold A.Key.cmp A.base_of A.unit_of A.combined self.now lo.now hi.now) }
        ensures succeeds { A.never_refuses → IsOk result }
    {
        counters::range_fold::<A, Brand>(alloc, &self.map, lo, hi, Blank::new(1))
    }

    /// The fold of the entries with keys at most `key`, in O(log n), and the `Augment`'s unit where there are none. It refuses
    /// nothing where the `Augment` never refuses.
    ///
    ///     let map = Sums::from_pairs(alloc, &[(1, 10), (2, 20), (3, 30)])?;
    ///     map.fold_to(alloc, &2)?.greatest     // 20
    pub fn fold_to(&self, alloc: Global, key: &A::Key) -> Result<A::Aug, NoMemory>
        ensures value { IfOk result (λ aug. aug ≡ fold_of A.base_of A.unit_of A.combined (left_of A.Key.cmp self.now key.now)) }
        ensures succeeds { A.never_refuses → IsOk result }
    {
        counters::left_fold::<A, Brand>(alloc, &self.map, key, Blank::new(1))
    }

    /// The fold of the entries with keys at least `key`, in O(log n), and the `Augment`'s unit where there are none. It refuses
    /// nothing where the `Augment` never refuses.
    ///
    ///     let map = Sums::from_pairs(alloc, &[(1, 10), (2, 20), (3, 30)])?;
    ///     map.fold_from(alloc, &2)?.sum     // 50
    pub fn fold_from(&self, alloc: Global, key: &A::Key) -> Result<A::Aug, NoMemory>
        ensures value { IfOk result (λ aug. aug ≡ fold_of A.base_of A.unit_of A.combined (right_of A.Key.cmp self.now key.now)) }
        ensures succeeds { A.never_refuses → IsOk result }
    {
        counters::right_fold::<A, Brand>(alloc, &self.map, key, Blank::new(1))
    }
}
