//! To and from the maps of `aug_map`, whose calls fork, count their steps, and join and split maps.
ghost use Rattle.std.specs.Prelude.{◌≡◌};

use crate::map::OrdMap;
use aug_map::PlainMap;
use aug_monoid::Augment;
use std::mem;

impl<A: Augment> OrdMap<A> {
    /// The map that this one is, in O(1): the way to calls that fork.
    ///
    ///     let map = Sums::from_pairs(alloc, &[(1, 10), (2, 20)])?;
    ///     let cut = Cut::new(4, 1024);
    ///     let twice = map.as_map().union(rt, alloc, &FreeGate, cut, map.as_map(), &SatSum)?;
    ///     Sums::from_map(twice)     // [(1, 20), (2, 40)]
    pub fn as_map(&self) -> &PlainMap<A>
        ensures { result.now.entries ≡ self.now }
    {
        &self.map
    }

    /// The map that this one is, given up, in O(1).
    ///
    ///     let map = Sums::from_pairs(alloc, &[(1, 10), (2, 20)])?;
    ///     map.into_map().size()     // 2
    pub fn into_map(self) -> PlainMap<A>
        ensures { result.entries ≡ self }
    {
        let mut whole = self;
        mem::replace(&mut whole.map, PlainMap::empty())
    }

    /// The map of the same entries, in O(1).
    ///
    ///     let map = PlainMap::build_alone(alloc, &[(1, 10), (2, 20)])?;
    ///     Sums::from_map(map)     // [(1, 10), (2, 20)]
    pub fn from_map(map: PlainMap<A>) -> OrdMap<A>
        ensures { result ≡ map.entries }
    {
        OrdMap { map }
    }
}
