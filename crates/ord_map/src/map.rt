//! The map, and what it tells without a walk.
ghost use Rattle.std.specs.Prelude.{◌≡◌, ◌<◌, ◌^◌, ◌↔◌, [], IfSome, IsNone, IsTrue, length};
ghost use Rattle.map_model.specs.Entries.{IsIncreasing};
ghost use Rattle.map_model.specs.Fold.{fold_of};

use aug_map::PlainMap;
use aug_map::shaped::{self, Cursor, Plain};
use aug_monoid::{Augment, NoMemory, Share};
use std::alloc::Global;
use std::marker::Model;

/// Entries of a map in the order of their keys, from both ends: one item an entry, a share of it or a refusal of that share.
pub type Iter<'a, A> = Cursor<'a, Plain<A>>;

/// Goes over the entries of a map in the order of their keys, and lends them.
pub type IterRef<'a, A> = shaped::IterRef<'a, Plain<A>>;

/// A persistent ordered map with the fold of its entries.
///
/// In the examples of its calls, which `map_examples` proves, `Sums` is `OrdMap<SumMax<u64>>`, `AtLeast { least: 20 }` tests whether
/// a value is at least 20, and `Largest` makes the largest value.
pub struct OrdMap<A: Augment> {
    pub(crate) map: PlainMap<A>,
}

impl<A: Augment> Model for OrdMap<A> {
    ghost use Rattle.std.specs.Prelude.{List};

    ghost Value = { List (A.Key × A.Val) };

    ghost view = { λ m. m.map.entries };
}

impl<A: Augment> Drop for OrdMap<A> {
    fn drop(self) {
        let OrdMap { map } = self;
        drop(map);
    }
}

impl<A: Augment> OrdMap<A> {
    /// The map with no entries, in O(1). It takes no memory.
    ///
    ///     Sums::new()     // []
    pub fn new() -> OrdMap<A>
        ensures { result ≡ [] }
    {
        OrdMap {
            map: PlainMap::empty(),
        }
    }

    /// How many entries there are, in O(1).
    ///
    ///     let map = Sums::from_pairs(alloc, &[(1, 10), (2, 20)])?;
    ///     map.len()     // 2
    pub fn len(&self) -> u64
        ensures value { result ≡ length self.now }
        ensures fits { result < 2 ^ 60 }
        ensures increasing { IsIncreasing A.Key.cmp self.now }
    {
        self.map.size()
    }

    /// Whether there are no entries, in O(1).
    ///
    ///     Sums::new().is_empty()     // true
    pub fn is_empty(&self) -> bool
        ensures { IsTrue result ↔ (self.now ≡ []) }
    {
        self.map.aug().is_none()
    }

    /// The fold of all entries, which is stored, in O(1); none exactly where there are no entries.
    ///
    ///     let map = Sums::from_pairs(alloc, &[(1, 10), (2, 20)])?;
    ///     map.fold().map(|totals| totals.sum)     // Some(30)
    pub fn fold(&self) -> Option<&A::Aug>
        ensures none { IsNone result ↔ (self.now ≡ []) }
        ensures fold { IfSome result (λ aug. aug.now ≡ fold_of A.base_of A.unit_of A.combined self.now) }
    {
        self.map.aug()
    }

    /// Goes over the entries in the order of their keys. An entry takes O(1), and the first one of a block O(log n). With `rev` it
    /// goes from the last entry to the first; then the last one of a block takes O(log n), and so does an entry between two blocks.
    ///
    ///     let map = Sums::from_pairs(alloc, &[(1, 10), (2, 20)])?;
    ///     let mut keys = Vec::new(alloc);
    ///     for entry in map.iter(alloc) {
    ///         keys.push(entry?.0)?;
    ///     }     // keys is [1, 2]
    pub fn iter(&self, alloc: Global) -> Iter<'_, A>
        ensures { result ≡ self.now }
    {
        self.map.cursor(alloc)
    }

    /// Lends the entries in the order of their keys. It makes no share, takes no memory and refuses nothing. An entry takes O(1), but
    /// the first one of a block, and one between two blocks, O(log n).
    ///
    ///     let map = Sums::from_pairs(alloc, &[(1, 10), (2, 20)])?;
    ///     let mut keys = Vec::new(alloc);
    ///     for (key, _) in map.iter_ref() {
    ///         keys.push(*key)?;
    ///     }     // keys is [1, 2]
    pub fn iter_ref(&self) -> IterRef<'_, A>
        ensures { result ≡ self.now }
    {
        self.map.iter_ref()
    }
}

impl<A: Augment> Default for OrdMap<A> {
    ghost is_default = { λ m. m ≡ [] };

    /// The map with no entries.
    ///
    ///     Sums::default()     // []
    fn default() -> OrdMap<A> {
        OrdMap::new()
    }
}

impl<A: Augment> Share for OrdMap<A> {
    ghost never_refuses = { ⊥ };

    /// A map of the same entries, in O(1) and in the memory of this one.
    ///
    ///     let mut map = Sums::from_pairs(alloc, &[(1, 10)])?;
    ///     let before = map.share(alloc)?;
    ///     map.put(alloc, 1, 11)?;     // before is [(1, 10)], map is [(1, 11)]
    fn share(&self, alloc: Global) -> Result<OrdMap<A>, NoMemory> {
        let map = self.map.share(alloc)?;
        Ok(OrdMap { map })
    }
}
