//! Sets of many intervals at once.
ghost use Rattle.std.specs.Prelude.{◌≡◌, [], IfOk};
ghost use Rattle.std.specs.List.{AllByRecursion};
ghost use Rattle.interval_map.specs.Intervals.{IsInterval, common_intervals, with_intervals, without_intervals};

use crate::intervals::Intervals;
use crate::sorting::{map_of, sorted_numbers};
use aug_monoid::{First, NoMemory, Pair64};
use ord_map::OrdMap;
use std::alloc::Global;

impl Intervals {
    /// The set of the intervals of a list, whose right ends are at least their left ends. One that comes twice is there once.
    /// O(n * log n) for n intervals.
    pub fn from_intervals(alloc: Global, intervals: &[Pair64]) -> Result<Intervals, NoMemory>
        requires { AllByRecursion IsInterval intervals.now }
        ensures { IfOk result (λ set. set ≡ with_intervals [] intervals.now) }
    {
        let numbers = sorted_numbers(alloc, intervals)?;
        let map = map_of(alloc, &numbers)?;
        Ok(Intervals {
            map: OrdMap::from_map(map),
        })
    }

    /// The intervals of either set. O(m * log(n / m + 1)) for sets of m and n intervals, m at most n.
    pub fn union(&self, alloc: Global, other: &Intervals) -> Result<Intervals, NoMemory>
        ensures { IfOk result (λ set. set ≡ with_intervals self.now other.now) }
    {
        let map = self.map.union(alloc, &other.map, &First)?;
        Ok(Intervals { map })
    }

    /// The intervals of this set that `other` hasn't, in the time of `union`.
    pub fn difference(&self, alloc: Global, other: &Intervals) -> Result<Intervals, NoMemory>
        ensures { IfOk result (λ set. set ≡ without_intervals self.now other.now) }
    {
        let map = self.map.difference(alloc, &other.map)?;
        Ok(Intervals { map })
    }

    /// The intervals that both sets have, in the time of `union`.
    pub fn intersection(&self, alloc: Global, other: &Intervals) -> Result<Intervals, NoMemory>
        ensures { IfOk result (λ set. set ≡ common_intervals self.now other.now) }
    {
        let map = self.map.intersection(alloc, &other.map, &First)?;
        Ok(Intervals { map })
    }
}
