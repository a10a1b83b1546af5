//! What stands at a key, at a place, and beside a key.
ghost use Rattle.std.specs.Prelude.{◌≡◌, IfOk, IsOk, is_some, length};
ghost use Rattle.std.specs.Option.{option_copied, unwrap_or};
ghost use Rattle.map_model.specs.Entries.{lookup};
ghost use Rattle.map_model.specs.Parts.{left_of, next, prev, rank, select};
ghost use Rattle.ord_map.specs.Ends.{last};

use crate::counters;
use crate::map::OrdMap;
use aug_monoid::{Augment, NoMemory};
use std::alloc::Global;
use std::marker::Brand;
use std::sync::ledger::Blank;

impl<A: Augment> OrdMap<A> {
    /// The value at a key, if it is there, in O(log n).
    ///
    ///     let map = Sums::from_pairs(alloc, &[(1, 10), (2, 20)])?;
    ///     map.get(alloc, &2)?     // Some(20)
    pub fn get(&self, alloc: Global, key: &A::Key) -> Result<Option<A::Val>, NoMemory>
        ensures value { IfOk result (λ val. val ≡ lookup A.Key.cmp self.now key.now) }
        ensures succeeds { A.Key.never_refuses → A.Val.never_refuses → IsOk result }
    {
        counters::get::<A, Brand>(alloc, &self.map, key, Blank::new(1))
    }

    /// Lends the value at a key, if it is there, in O(log n). It takes no memory.
    ///
    ///     let map = Sums::from_pairs(alloc, &[(1, 10), (2, 20)])?;
    ///     map.get_ref(&2).copied()     // Some(20)
    pub fn get_ref(&self, key: &A::Key) -> Option<&A::Val>
        ensures { option_copied result ≡ lookup A.Key.cmp self.now key.now }
    {
        counters::get_ref::<A, Brand>(&self.map, key, Blank::new(1))
    }

    /// Whether the key is there, in O(log n). It takes no memory and shares no value, so it never refuses: the allocator and the
    /// `Result` are those of the calls beside it.
    ///
    ///     let map = Sums::from_pairs(alloc, &[(1, 10), (2, 20)])?;
    ///     map.contains_key(alloc, &3)?     // false
    pub fn contains_key(&self, _alloc: Global, key: &A::Key) -> Result<bool, NoMemory>
        ensures value { IfOk result (λ yes. yes ≡ is_some (lookup A.Key.cmp self.now key.now)) }
        ensures succeeds { A.Key.never_refuses → A.Val.never_refuses → IsOk result }
    {
        Ok(counters::contains_key::<A, Brand>(&self.map, key, Blank::new(1)))
    }

    /// The value at a key, or `default` where the key is not there, in O(log n).
    ///
    ///     let map = Sums::from_pairs(alloc, &[(1, 10), (2, 20)])?;
    ///     map.get_or(alloc, &3, 7)?     // 7
    pub fn get_or(&self, alloc: Global, key: &A::Key, default: A::Val) -> Result<A::Val, NoMemory>
        ensures value { IfOk result (λ val. val ≡ unwrap_or (lookup A.Key.cmp self.now key.now) default) }
        ensures succeeds { A.Key.never_refuses → A.Val.never_refuses → IsOk result }
    {
        Ok(self.get(alloc, key)?.unwrap_or(default))
    }

    /// The entry with the least key, in O(log n); none exactly where there are no entries.
    ///
    ///     let map = Sums::from_pairs(alloc, &[(1, 10), (2, 20)])?;
    ///     map.first(alloc)?     // Some((1, 10))
    pub fn first(&self, alloc: Global) -> Result<Option<(A::Key, A::Val)>, NoMemory>
        ensures value { IfOk result (λ entry. entry ≡ select self.now 0) }
        ensures succeeds { A.Key.never_refuses → A.Val.never_refuses → IsOk result }
    {
        self.map.select(alloc, 0)
    }

    /// The entry with the greatest key, in O(log n); none exactly where there are no entries.
    ///
    ///     let map = Sums::from_pairs(alloc, &[(1, 10), (2, 20)])?;
    ///     map.last(alloc)?     // Some((2, 20))
    pub fn last(&self, alloc: Global) -> Result<Option<(A::Key, A::Val)>, NoMemory>
        ensures value { IfOk result (λ entry. entry ≡ last self.now) }
        ensures succeeds { A.Key.never_refuses → A.Val.never_refuses → IsOk result }
    {
        self.map.select(alloc, self.map.size().saturating_sub(1))
    }

    /// The entry at a place, counted from 0, in O(log n); none exactly where there are at most `at` entries.
    ///
    ///     let map = Sums::from_pairs(alloc, &[(1, 10), (2, 20)])?;
    ///     map.select(alloc, 1)?     // Some((2, 20))
    pub fn select(&self, alloc: Global, at: u64) -> Result<Option<(A::Key, A::Val)>, NoMemory>
        ensures value { IfOk result (λ entry. entry ≡ select self.now at) }
        ensures succeeds { A.Key.never_refuses → A.Val.never_refuses → IsOk result }
    {
        self.map.select(alloc, at)
    }

    /// How many keys are less than `key`, in O(log n). It takes no memory.
    ///
    ///     let map = Sums::from_pairs(alloc, &[(1, 10), (2, 20)])?;
    ///     map.rank(&2)     // 1
    pub fn rank(&self, key: &A::Key) -> u64
        ensures { result ≡ rank A.Key.cmp self.now key.now }
    {
        counters::rank::<A, Brand>(&self.map, key, Blank::new(1))
    }

    /// How many keys are at most `key`, in O(log n). It takes no memory.
    ///
    ///     let map = Sums::from_pairs(alloc, &[(1, 10), (2, 20)])?;
    ///     map.count_to(&2)     // 2
    pub fn count_to(&self, key: &A::Key) -> u64
        ensures { result ≡ length (left_of A.Key.cmp self.now key.now) }
    {
        counters::count_to::<A, Brand>(&self.map, key, Blank::new(1))
    }

    /// The entry with the least key greater than `key`, in O(log n); none exactly where no key is greater.
    ///
    ///     let map = Sums::from_pairs(alloc, &[(1, 10), (2, 20)])?;
    ///     map.next(alloc, &1)?     // Some((2, 20))
    pub fn next(&self, alloc: Global, key: &A::Key) -> Result<Option<(A::Key, A::Val)>, NoMemory>
        ensures value { IfOk result (λ entry. entry ≡ next A.Key.cmp self.now key.now) }
        ensures succeeds { A.Key.never_refuses → A.Val.never_refuses → IsOk result }
    {
        counters::next::<A, Brand>(alloc, &self.map, key, Blank::new(1))
    }

    /// The entry with the greatest key less than `key`, in O(log n); none exactly where no key is less.
    ///
    ///     let map = Sums::from_pairs(alloc, &[(1, 10), (2, 20)])?;
    ///     map.prev(alloc, &2)?     // Some((1, 10))
    pub fn prev(&self, alloc: Global, key: &A::Key) -> Result<Option<(A::Key, A::Val)>, NoMemory>
        ensures value { IfOk result (λ entry. entry ≡ prev A.Key.cmp self.now key.now) }
        ensures succeeds { A.Key.never_refuses → A.Val.never_refuses → IsOk result }
    {
        counters::prev::<A, Brand>(alloc, &self.map, key, Blank::new(1))
    }
}
