//! Maps from intervals to values, and what they tell without a walk.
ghost use Rattle.std.specs.Prelude.{◌≡◌, ◌↔◌, [], IsTrue, IfOk, length};
ghost use Rattle.interval_map.specs.IntervalMaps.{IsIntervalMap};

use aug_monoid::{Key, MaxRightOf, NoMemory, Share, Span};
use ord_map::{Iter, OrdMap};
use std::alloc::Global;
use std::marker::Model;

/// A persistent map from intervals to values. An interval is its left end and its right end, both included, which are keys of any
/// type. Contracts see it as the list of its entries by left end and then by right end.
pub struct IntervalMap<E: Key, V: Share> {
    pub(crate) map: OrdMap<MaxRightOf<E, V>>,
}

impl<E: Key, V: Share> Model for IntervalMap<E, V> {
    ghost use Rattle.std.specs.Prelude.{List};
    ghost use Rattle.aug_monoid.specs.declared.span.Span.{Span};

    ghost Value = { List (Span E × V) };

    ghost use Rattle.interval_map.specs.IntervalMaps.{AreIntervals};

    ghost view = { λ m. m.map };

    ghost invariant = { λ m. AreIntervals E.cmp m.map };
}

impl<E: Key, V: Share> Drop for IntervalMap<E, V> {
    fn drop(self) {
        let IntervalMap { map } = self;
        drop(map);
    }
}

impl<E: Key, V: Share> IntervalMap<E, V> {
    /// The map of no intervals. It takes no memory. O(1).
    pub fn new() -> IntervalMap<E, V>
        ensures { result ≡ [] }
    {
        IntervalMap { map: OrdMap::new() }
    }

    /// How many intervals there are. O(1).
    pub fn len(&self) -> u64
        ensures value { result ≡ length self.now }
        ensures intervals { IsIntervalMap E.cmp self.now }
    {
        self.map.len()
    }

    /// Whether there are no intervals. O(1).
    pub fn is_empty(&self) -> bool
        ensures { IsTrue result ↔ (self.now ≡ []) }
    {
        self.map.is_empty()
    }

    /// Goes over the entries in order, and from both ends. O(1) for an entry, and O(log n) for the first one of a block.
    pub fn iter(&self, alloc: Global) -> Iter<'_, MaxRightOf<E, V>>
        ensures { result ≡ self.now }
    {
        self.map.iter(alloc)
    }

    /// The entries in order. O(n).
    pub fn to_vec(&self, alloc: Global) -> Result<Vec<(Span<E>, V)>, NoMemory>
        ensures { IfOk result (λ list. list.items ≡ self.now) }
    {
        self.map.to_vec(alloc)
    }
}

impl<E: Key, V: Share> Share for IntervalMap<E, V> {
    ghost never_refuses = { ⊥ };

    /// The same map, kept once for both: a change of one copies what it changes, and leaves the other as it was. O(1).
    fn share(&self, alloc: Global) -> Result<IntervalMap<E, V>, NoMemory> {
        let map = self.map.share(alloc)?;
        Ok(IntervalMap { map })
    }
}
