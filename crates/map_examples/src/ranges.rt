//! Iterators over a range of keys, and from a place on.
ghost use Rattle.std.specs.Prelude.{◌≡◌, IfOk, Some};

use crate::Sums;
use aug_monoid::NoMemory;
use std::alloc::Global;
use std::ops::Bound;

pub fn range_iter(alloc: Global) -> Result<Option<(u64, u64)>, NoMemory>
    ensures { IfOk result (λ entry. entry ≡ Some (2, 20)) }
{
    let map = Sums::from_pairs(alloc, &[(1, 10), (2, 20), (3, 30)])?;
    let mut entries = map.range_iter(alloc, Bound::Unbounded, Bound::Excluded(&3));
    entries.next_back().transpose()
}

pub fn range_ref(alloc: Global) -> Result<Option<(u64, u64)>, NoMemory>
    ensures { IfOk result (λ entry. entry ≡ Some (2, 20)) }
{
    let map = Sums::from_pairs(alloc, &[(1, 10), (2, 20), (3, 30)])?;
    let mut entries = map.range_ref(Bound::Excluded(&1), Bound::Unbounded);
    Ok(entries.next().map(|entry| (*entry.0, *entry.1)))
}

pub fn iter_from_place(alloc: Global) -> Result<Option<(u64, u64)>, NoMemory>
    ensures { IfOk result (λ entry. entry ≡ Some (2, 20)) }
{
    let map = Sums::from_pairs(alloc, &[(1, 10), (2, 20), (3, 30)])?;
    map.iter_from_place(alloc, 1).next().transpose()
}
