//! Iterators over a range of keys, and from a place on.
ghost use Rattle.std.specs.Prelude.{◌≡◌, not, drop, length};
ghost use Rattle.std.specs.BTreeMap.Range.{entries_between, is_from_start, is_past_end};
ghost use Rattle.std.specs.List.{filter as filtered};
ghost use Rattle.std.specs.Range.Bound.{bound_map};

use crate::map::{Iter, IterRef, OrdMap};
use aug_monoid::Augment;
use std::alloc::Global;
use std::ops::Bound;

impl<A: Augment> OrdMap<A> {
    /// Goes over the entries whose keys are within two bounds, in the order of the keys; over none where no key is within both. It
    /// makes no map and takes no memory: the ends are found in O(log n), and an entry takes what it takes in `iter`. With `rev` it
    /// goes from the last entry to the first.
    ///
    ///     let map = Sums::from_pairs(alloc, &[(1, 10), (2, 20), (3, 30)])?;
    ///     let mut entries = map.range_iter(alloc, Bound::Unbounded, Bound::Excluded(&3));
    ///     entries.next_back().transpose()?     // Some((2, 20))
    pub fn range_iter(&self, alloc: Global, lo: Bound<&A::Key>, hi: Bound<&A::Key>) -> Iter<'_, A>
        ensures { result ≡ entries_between A.Key.cmp (bound_map (λ k. k.now) lo.entry) (bound_map (λ k. k.now) hi.entry) self.now }
    {
        let _number = self.len(); // for the proof alone: keys rise
        let from = self.start_place(lo);
        let to = self.end_place(hi);
        self.map.cursor_between(alloc, from, to)
    }

    /// Lends the entries whose keys are within two bounds, as `range_iter` goes over them and as `iter_ref` lends. Its ends are found in
    /// O(log n).
    ///
    ///     let map = Sums::from_pairs(alloc, &[(1, 10), (2, 20), (3, 30)])?;
    ///     let mut entries = map.range_ref(Bound::Excluded(&1), Bound::Unbounded);
    ///     entries.next().map(|entry| (*entry.0, *entry.1))     // Some((2, 20))
    pub fn range_ref(&self, lo: Bound<&A::Key>, hi: Bound<&A::Key>) -> IterRef<'_, A>
        ensures { result ≡ entries_between A.Key.cmp (bound_map (λ k. k.now) lo.entry) (bound_map (λ k. k.now) hi.entry) self.now }
    {
        let _number = self.len(); // for the proof alone: keys rise
        let from = self.start_place(lo);
        let to = self.end_place(hi);
        self.map.iter_ref_between(from, to)
    }

    /// Goes over the entries from a place on, counted from 0, as `iter` does; over none where there are at most `at` entries.
    ///
    ///     let map = Sums::from_pairs(alloc, &[(1, 10), (2, 20), (3, 30)])?;
    ///     map.iter_from_place(alloc, 1).next().transpose()?     // Some((2, 20))
    pub fn iter_from_place(&self, alloc: Global, at: u64) -> Iter<'_, A>
        ensures { result ≡ drop at self.now }
    {
        self.map.cursor_between(alloc, at, self.len())
    }

    // How many entries stand before those that a lower bound lets through.
    fn start_place(&self, lo: Bound<&A::Key>) -> u64
        ensures { result ≡ length (filtered (λ e. not (is_from_start A.Key.cmp (bound_map (λ k. k.now) lo.entry) e.0)) self.now) }
    {
        match lo {
            Bound::Included(key) => self.rank(key),
            Bound::Excluded(key) => self.count_to(key),
            Bound::Unbounded => 0,
        }
    }

    // How many entries an upper bound lets through.
    fn end_place(&self, hi: Bound<&A::Key>) -> u64
        ensures { result ≡ length (filtered (λ e. not (is_past_end A.Key.cmp (bound_map (λ k. k.now) hi.entry) e.0)) self.now) }
    {
        match hi {
            Bound::Included(key) => self.count_to(key),
            Bound::Excluded(key) => self.rank(key),
            Bound::Unbounded => self.len(),
        }
    }
}
