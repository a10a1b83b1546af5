//! What has changed from one map to another.
ghost use Rattle.std.specs.Prelude.{◌≡◌, IfOk};
ghost use Rattle.entry_lists.specs.Changes.{changes};

use crate::map::OrdMap;
use aug_monoid::{Augment, NoMemory};
use entry_lists::{Change, changes_of};
use std::alloc::Global;

impl<A: Augment<Val: PartialEq>> OrdMap<A> {
    /// What has changed from this map to a newer one, in the order of the keys: the keys that came, that went, and that have
    /// another value. A `Change` has no `Debug`. The call lists both maps, so it takes O(m + n) time and memory for maps of m and
    /// n entries, however few have changed.
    ///
    ///     let map = Sums::from_pairs(alloc, &[(1, 10)])?;
    ///     let newer = Sums::from_pairs(alloc, &[(1, 11), (2, 20)])?;
    ///     map.diff(alloc, &newer)?     // [Updated { key: 1, old: 10, new: 11 }, Added { key: 2, val: 20 }]
    pub fn diff(
        &self,
        alloc: Global,
        newer: &OrdMap<A>,
    ) -> Result<Vec<Change<A::Key, A::Val>>, NoMemory>
        ensures { IfOk result (λ out. out.items ≡ changes A.Key.cmp A.Val.eq self.now newer.now) }
    {
        let _numbers = (self.len(), newer.len()); // for the proof alone: keys rise
        let old = self.to_vec(alloc)?;
        let new = newer.to_vec(alloc)?;
        changes_of(alloc, &old, &new)
    }
}
