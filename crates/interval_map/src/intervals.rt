//! Sets of intervals, and what they tell without a walk.
ghost use Rattle.std.specs.Prelude.{◌≡◌, [], length};
ghost use Rattle.std.specs.Map.{keys_of};
ghost use Rattle.interval_map.specs.Intervals.{IsIntervals, interval};

use aug_map::PlainMap;
use aug_monoid::{MaxRight, NoMemory, Pair64, Share};
use ord_map::OrdMap;
use std::alloc::Global;
use std::marker::Model;

/// A persistent set of intervals, each from its left end to its right end, both included. Contracts see it as the list of the
/// intervals by left end and then by right end.
pub struct Intervals {
    pub(crate) map: OrdMap<MaxRight>,
}

impl Model for Intervals {
    ghost use Rattle.std.specs.Prelude.{List};
    ghost use Rattle.aug_monoid.specs.declared.pair64.Pair64.{Pair64};

    ghost Value = { List Pair64 };

    ghost use Rattle.std.specs.List.{AllByRecursion};
    ghost use Rattle.std.specs.Map.{keys_of};
    ghost use Rattle.interval_map.specs.Intervals.{IsInterval};

    ghost view = { λ s. keys_of s.map };

    ghost invariant = { λ s. AllByRecursion IsInterval (keys_of s.map) };
}

impl Drop for Intervals {
    fn drop(self) {
        let Intervals { map } = self;
        drop(map);
    }
}

/// The interval from a left end to a right end.
pub(crate) fn interval(left: u64, right: u64) -> Pair64
    ensures { result ≡ interval left right }
{
    Pair64 {
        first: left,
        second: right,
    }
}

impl Intervals {
    /// The set of no intervals. It takes no memory. O(1).
    pub fn new() -> Intervals
        ensures { result ≡ [] }
    {
        Intervals { map: OrdMap::new() }
    }

    /// How many intervals there are. O(1).
    pub fn size(&self) -> u64
        ensures value { result ≡ length self.now }
        ensures intervals { IsIntervals self.now }
    {
        self.map.len()
    }

    /// Lends the map whose keys are the intervals. O(1).
    pub fn map(&self) -> &PlainMap<MaxRight>
        ensures { keys_of result.now.entries ≡ self.now }
    {
        self.map.as_map()
    }
}

impl Share for Intervals {
    ghost never_refuses = { ⊥ };

    /// The same set, kept once for both: a change of one copies what it changes, and leaves the other as it was. O(1).
    fn share(&self, alloc: Global) -> Result<Intervals, NoMemory> {
        let map = self.map.share(alloc)?;
        Ok(Intervals { map })
    }
}
