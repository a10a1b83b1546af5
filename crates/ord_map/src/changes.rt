//! Changes of many entries: all of them removed, those at given keys, those of a range.
ghost use Rattle.std.specs.Prelude.{◌≡◌, [], IfOk, OnErr};
ghost use Rattle.map_model.specs.Operations.{after, dels};
ghost use Rattle.map_model.specs.Parts.{slice};
ghost use Rattle.map_model.specs.SetOperations.{difference};

use crate::map::OrdMap;
use aug_map::PlainMap;
use aug_monoid::{Augment, NoMemory};
use std::alloc::Global;

impl<A: Augment> OrdMap<A> {
    /// Removes all entries: in O(n) where no other map shares them, and in less by what others share. It takes no memory.
    ///
    ///     let mut map = Sums::from_pairs(alloc, &[(1, 10), (2, 20)])?;
    ///     map.clear();     // map is []
    pub fn clear(&mut self)
        ensures { self.new ≡ [] }
    {
        self.map = PlainMap::empty();
    }

    /// Removes keys; those that the map hasn't change nothing. For k keys it takes O(k log n). After a refusal the map is as it
    /// was.
    ///
    ///     let mut map = Sums::from_pairs(alloc, &[(1, 10), (2, 20)])?;
    ///     map.remove_all(alloc, &[3, 1])?;     // map is [(2, 20)]
    pub fn remove_all(&mut self, alloc: Global, keys: &[A::Key]) -> Result<(), NoMemory>
        ensures entries { IfOk result (λ _. self.new ≡ after A.Key.cmp self.old (dels keys.now)) }
        ensures kept { OnErr result (self.new ≡ self.old) }
    {
        self.map = self.map.multi_del_alone(alloc, keys)?;
        Ok(())
    }

    /// Takes the entries with keys from `lo` to `hi`, both included, out of the map, and answers them as a map of their own. For k
    /// such entries it takes O(k log(n / k + 1)). After a refusal the map is as it was.
    ///
    ///     let mut map = Sums::from_pairs(alloc, &[(1, 10), (2, 20), (3, 30)])?;
    ///     let part = map.extract_range(alloc, &1, &2)?;     // part is [(1, 10), (2, 20)], map is [(3, 30)]
    pub fn extract_range(
        &mut self,
        alloc: Global,
        lo: &A::Key,
        hi: &A::Key,
    ) -> Result<OrdMap<A>, NoMemory>
        ensures part { IfOk result (λ part. part ≡ slice A.Key.cmp self.old lo.now hi.now) }
        ensures rest { IfOk result (λ _. self.new ≡ difference A.Key.cmp self.old (slice A.Key.cmp self.old lo.now hi.now)) }
        ensures kept { OnErr result (self.new ≡ self.old) }
    {
        let part = self.range(alloc, lo, hi)?;
        self.map = self.map.difference_alone(alloc, &part.map)?;
        Ok(part)
    }
}
