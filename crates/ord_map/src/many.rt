//! Many questions at once.
ghost use Rattle.std.specs.Prelude.{◌≡◌, IfOk, is_some, map};
ghost use Rattle.map_model.specs.Entries.{lookup};
ghost use Rattle.map_model.specs.Fold.{range_fold};

use crate::map::OrdMap;
use aug_monoid::{Augment, NoMemory};
use std::alloc::Global;

impl<A: Augment> OrdMap<A> {
    /// The values at keys, in the order in which the keys are given, each if it is there. Keys may come in any order and more than
    /// once. For k keys it takes O(k log k + k log(n / k + 1)), and in a great map a fraction of the time of k calls of `get`, since
    /// sorted keys go down together.
    ///
    ///     let map = Sums::from_pairs(alloc, &[(1, 10), (2, 20)])?;
    ///     map.get_many(alloc, &[3, 1, 3])?     // [None, Some(10), None]
    pub fn get_many(&self, alloc: Global, keys: &[A::Key]) -> Result<Vec<Option<A::Val>>, NoMemory>
        ensures { IfOk result (λ vals. vals.items ≡ map (λ k. lookup A.Key.cmp self.now k) keys.now) }
    {
        self.map.get_many(alloc, keys)
    }

    /// Whether each of the keys is there, in the order in which the keys are given and in the time of `get_many`. It shares no value.
    ///
    ///     let map = Sums::from_pairs(alloc, &[(1, 10), (2, 20)])?;
    ///     map.contains_many(alloc, &[3, 1])?     // [false, true]
    pub fn contains_many(&self, alloc: Global, keys: &[A::Key]) -> Result<Vec<bool>, NoMemory>
        ensures { IfOk result (λ found. found.items ≡ map (λ k. is_some (lookup A.Key.cmp self.now k)) keys.now) }
    {
        self.map.contains_many(alloc, keys)
    }

    /// The folds of ranges, each from its first key to its second, both included, in the order in which the ranges are given. For k
    /// ranges it takes O(k log n).
    ///
    ///     let map = Sums::from_pairs(alloc, &[(1, 10), (2, 20)])?;
    ///     map.fold_many(alloc, &[(1, 2), (2, 2)])?     // [Totals { sum: 30, greatest: 20 }, Totals { sum: 20, greatest: 20 }]
    pub fn fold_many(
        &self,
        alloc: Global,
        ranges: &[(A::Key, A::Key)],
    ) -> Result<Vec<A::Aug>, NoMemory>
        ensures { IfOk result (λ folds. folds.items ≡ map (λ r. range_fold A.Key.cmp A.base_of A.unit_of A.combined self.now r.0 r.1) ranges.now) }
    {
        let mut folds = Vec::with_capacity(alloc, ranges.len())?;
        for (lo, hi) in ranges {
            folds.push(self.fold_range(alloc, lo, hi)?)?;
        }
        Ok(folds)
    }
}
