//! Maps of many intervals at once.
ghost use Rattle.std.specs.Prelude.{◌≡◌, IfOk};
ghost use Rattle.aug_monoid.specs.Spans.{span_cmp};
ghost use Rattle.map_model.specs.Operations.{build};
ghost use Rattle.map_model.specs.SetOperations.{difference, union};
ghost use Rattle.interval_map.specs.IntervalMaps.{AreIntervals};

use crate::valued::IntervalMap;
use aug_monoid::{Key, NoMemory, Resolve, Share, Span};
use ord_map::OrdMap;
use std::alloc::Global;

impl<E: Key, V: Share> IntervalMap<E, V> {
    /// The map that intervals with values make, whose right ends are at least their left ends. Of an interval that comes twice the
    /// last value stays. O(n * log n) for n intervals.
    #[tactic(auto, using(crate::proofs::Kept::all_after_puts))]
    pub fn from_pairs(alloc: Global, pairs: &[(Span<E>, V)]) -> Result<IntervalMap<E, V>, NoMemory>
        requires { AreIntervals E.cmp pairs.now }
        ensures { IfOk result (λ map. map ≡ build (span_cmp E.cmp) pairs.now) }
    {
        let map = OrdMap::from_pairs(alloc, pairs)?;
        Ok(IntervalMap { map })
    }

    /// The intervals of either map; one of both with what `how` makes of its value here and its value in `other`.
    /// O(m * log(n / m + 1)) for maps of m and n intervals, m at most n.
    pub fn union<H: Resolve<V>>(
        &self,
        alloc: Global,
        other: &IntervalMap<E, V>,
        how: &H,
    ) -> Result<IntervalMap<E, V>, NoMemory>
        ensures { IfOk result (λ both. both ≡ union (span_cmp E.cmp) (H.resolved how.now) self.now other.now) }
    {
        let map = self.map.union(alloc, &other.map, how)?;
        Ok(IntervalMap { map })
    }

    /// The intervals that `other` hasn't, with their values here, in the time of `union`.
    pub fn difference(
        &self,
        alloc: Global,
        other: &IntervalMap<E, V>,
    ) -> Result<IntervalMap<E, V>, NoMemory>
        ensures { IfOk result (λ rest. rest ≡ difference (span_cmp E.cmp) self.now other.now) }
    {
        let map = self.map.difference(alloc, &other.map)?;
        Ok(IntervalMap { map })
    }
}
