//! The entries nearest to a key, with its own among them.
ghost use Rattle.std.specs.Prelude.{◌≡◌, IfOk, IsOk};
ghost use Rattle.ord_map.specs.Nearest.{ceiling, floor};

use crate::map::OrdMap;
use aug_monoid::{Augment, NoMemory, Share};
use std::alloc::Global;

impl<A: Augment> OrdMap<A> {
    /// The entry with the greatest key at most `key`, in O(log n); none exactly where all keys are greater.
    ///
    ///     let map = Sums::from_pairs(alloc, &[(10, 1), (20, 2)])?;
    ///     map.floor(alloc, &12)?     // Some((10, 1))
    pub fn floor(&self, alloc: Global, key: &A::Key) -> Result<Option<(A::Key, A::Val)>, NoMemory>
        ensures value { IfOk result (λ entry. entry ≡ floor A.Key.cmp self.now key.now) }
        ensures succeeds { A.Key.never_refuses → A.Val.never_refuses → IsOk result }
    {
        let _number = self.len(); // for the proof alone: keys rise
        match self.get(alloc, key)? {
            Some(val) => Ok(Some((key.share(alloc)?, val))),
            None => self.prev(alloc, key),
        }
    }

    /// The entry with the least key at least `key`, in O(log n); none exactly where all keys are less.
    ///
    ///     let map = Sums::from_pairs(alloc, &[(10, 1), (20, 2)])?;
    ///     map.ceiling(alloc, &12)?     // Some((20, 2))
    pub fn ceiling(&self, alloc: Global, key: &A::Key) -> Result<Option<(A::Key, A::Val)>, NoMemory>
        ensures value { IfOk result (λ entry. entry ≡ ceiling A.Key.cmp self.now key.now) }
        ensures succeeds { A.Key.never_refuses → A.Val.never_refuses → IsOk result }
    {
        let _number = self.len(); // for the proof alone: keys rise
        self.select(alloc, self.rank(key))
    }
}
