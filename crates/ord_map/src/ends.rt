//! Entries taken from the ends of a map.
ghost use Rattle.std.specs.Prelude.{◌≡◌, IfOk, OnErr};
ghost use Rattle.map_model.specs.Parts.{select};
ghost use Rattle.ord_map.specs.Ends.{last, without_first, without_last};

use crate::map::OrdMap;
use aug_monoid::{Augment, NoMemory};
use std::alloc::Global;

impl<A: Augment> OrdMap<A> {
    /// Takes the entry with the least key out of the map, in O(log n); none exactly where there are no entries. After a refusal the
    /// map is as it was.
    ///
    ///     let mut map = Sums::from_pairs(alloc, &[(1, 10), (2, 20)])?;
    ///     let entry = map.pop_first(alloc)?;     // entry is Some((1, 10)), map is [(2, 20)]
    pub fn pop_first(&mut self, alloc: Global) -> Result<Option<(A::Key, A::Val)>, NoMemory>
        ensures value { IfOk result (λ entry. entry ≡ select self.old 0) }
        ensures rest { IfOk result (λ _. self.new ≡ without_first self.old) }
        ensures kept { OnErr result (self.new ≡ self.old) }
    {
        let _number = self.len(); // for the proof alone: keys rise
        let Some(entry) = self.first(alloc)? else {
            return Ok(None);
        };
        self.del(alloc, &entry.0)?;
        Ok(Some(entry))
    }

    /// Takes the entry with the greatest key out of the map, in O(log n); none exactly where there are no entries. After a refusal
    /// the map is as it was.
    ///
    ///     let mut map = Sums::from_pairs(alloc, &[(1, 10), (2, 20)])?;
    ///     let entry = map.pop_last(alloc)?;     // entry is Some((2, 20)), map is [(1, 10)]
    pub fn pop_last(&mut self, alloc: Global) -> Result<Option<(A::Key, A::Val)>, NoMemory>
        ensures value { IfOk result (λ entry. entry ≡ last self.old) }
        ensures rest { IfOk result (λ _. self.new ≡ without_last self.old) }
        ensures kept { OnErr result (self.new ≡ self.old) }
    {
        let _number = self.len(); // for the proof alone: keys rise
        let Some(entry) = self.last(alloc)? else {
            return Ok(None);
        };
        self.del(alloc, &entry.0)?;
        Ok(Some(entry))
    }
}
