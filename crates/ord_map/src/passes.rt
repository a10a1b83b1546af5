//! Entries that a test of folds finds, and answers that are made of all entries.
ghost use Rattle.std.specs.Prelude.{◌≡◌, IfOk, IsOk};
ghost use Rattle.map_model.specs.Fold.{aug_filter, reduce};
ghost use Rattle.map_model.specs.Parts.{select};

use crate::map::OrdMap;
use aug_monoid::{AugTest, Augment, NoMemory, Reduce};
use std::alloc::Global;

impl<A: Augment> OrdMap<A> {
    /// The map of the entries whose base values pass. An entry is tested by itself; a running sum can't be asked for so. It passes
    /// over each part whose fold fails the test, so for k entries that pass it takes O(k log(n / k + 1)).
    ///
    ///     let map = Sums::from_pairs(alloc, &[(1, 10), (2, 20), (3, 30)])?;
    ///     map.filter_fold(alloc, &AtLeast { least: 20 })?     // [(2, 20), (3, 30)]
    pub fn filter_fold<T: AugTest<A>>(&self, alloc: Global, test: &T) -> Result<OrdMap<A>, NoMemory>
        ensures { IfOk result (λ part. part ≡ aug_filter A.base_of (T.admits test.now) self.now) }
    {
        let map = self.map.aug_filter(alloc, test)?;
        Ok(OrdMap { map })
    }

    /// The first entry whose base value passes; none exactly where no entry's does. An entry is tested by itself; a running sum
    /// can't be asked for so. It passes over each part whose fold fails the test, and takes O(log n).
    ///
    ///     let map = Sums::from_pairs(alloc, &[(1, 10), (2, 20), (3, 30)])?;
    ///     map.first_where(alloc, &AtLeast { least: 20 })?     // Some((2, 20))
    pub fn first_where<T: AugTest<A>>(
        &self,
        alloc: Global,
        test: &T,
    ) -> Result<Option<(A::Key, A::Val)>, NoMemory>
        ensures value { IfOk result (λ found. found ≡ select (aug_filter A.base_of (T.admits test.now) self.now) 0) }
        ensures succeeds { A.never_refuses → A.Key.never_refuses → A.Val.never_refuses → IsOk result }
    {
        self.map.first_where(alloc, test)
    }

    /// The entries in the order of their keys, in O(n).
    ///
    ///     let map = Sums::from_pairs(alloc, &[(1, 10), (2, 20)])?;
    ///     map.to_vec(alloc)?     // [(1, 10), (2, 20)]
    pub fn to_vec(&self, alloc: Global) -> Result<Vec<(A::Key, A::Val)>, NoMemory>
        ensures { IfOk result (λ list. list.items ≡ self.now) }
    {
        self.map.to_vec(alloc)
    }

    /// What `how` makes of each entry, combined in the order of the keys, and its unit for no entries, in O(n).
    ///
    ///     let map = Sums::from_pairs(alloc, &[(1, 20), (2, 10)])?;
    ///     map.map_reduce(alloc, &Largest)?     // 20
    pub fn map_reduce<H: Reduce<A::Key, A::Val>>(
        &self,
        alloc: Global,
        how: &H,
    ) -> Result<H::Out, NoMemory>
        ensures { IfOk result (λ out. out ≡ reduce (H.image_of how.now) (H.unit_of how.now) (H.combined how.now) self.now) }
    {
        self.map.map_reduce_alone(alloc, how)
    }
}
