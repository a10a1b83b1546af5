//! What stands at a key, at a place, and beside a key.
ghost use Rattle.std.specs.Prelude.{◌≡◌, IfOk, Some, false};

use crate::Sums;
use aug_monoid::NoMemory;
use std::alloc::Global;

pub fn get(alloc: Global) -> Result<Option<u64>, NoMemory>
    ensures { IfOk result (λ val. val ≡ Some 20) }
{
    let map = Sums::from_pairs(alloc, &[(1, 10), (2, 20)])?;
    map.get(alloc, &2)
}

pub fn get_ref(alloc: Global) -> Result<Option<u64>, NoMemory>
    ensures { IfOk result (λ val. val ≡ Some 20) }
{
    let map = Sums::from_pairs(alloc, &[(1, 10), (2, 20)])?;
    Ok(map.get_ref(&2).copied())
}

pub fn contains_key(alloc: Global) -> Result<bool, NoMemory>
    ensures { IfOk result (λ yes. yes ≡ false) }
{
    let map = Sums::from_pairs(alloc, &[(1, 10), (2, 20)])?;
    map.contains_key(alloc, &3)
}

pub fn get_or(alloc: Global) -> Result<u64, NoMemory>
    ensures { IfOk result (λ val. val ≡ 7) }
{
    let map = Sums::from_pairs(alloc, &[(1, 10), (2, 20)])?;
    map.get_or(alloc, &3, 7)
}

pub fn first(alloc: Global) -> Result<Option<(u64, u64)>, NoMemory>
    ensures { IfOk result (λ entry. entry ≡ Some (1, 10)) }
{
    let map = Sums::from_pairs(alloc, &[(1, 10), (2, 20)])?;
    map.first(alloc)
}

pub fn last(alloc: Global) -> Result<Option<(u64, u64)>, NoMemory>
    ensures { IfOk result (λ entry. entry ≡ Some (2, 20)) }
{
    let map = Sums::from_pairs(alloc, &[(1, 10), (2, 20)])?;
    map.last(alloc)
}

pub fn select(alloc: Global) -> Result<Option<(u64, u64)>, NoMemory>
    ensures { IfOk result (λ entry. entry ≡ Some (2, 20)) }
{
    let map = Sums::from_pairs(alloc, &[(1, 10), (2, 20)])?;
    map.select(alloc, 1)
}

pub fn rank(alloc: Global) -> Result<u64, NoMemory>
    ensures { IfOk result (λ number. number ≡ 1) }
{
    let map = Sums::from_pairs(alloc, &[(1, 10), (2, 20)])?;
    Ok(map.rank(&2))
}

pub fn count_to(alloc: Global) -> Result<u64, NoMemory>
    ensures { IfOk result (λ number. number ≡ 2) }
{
    let map = Sums::from_pairs(alloc, &[(1, 10), (2, 20)])?;
    Ok(map.count_to(&2))
}

pub fn next(alloc: Global) -> Result<Option<(u64, u64)>, NoMemory>
    ensures { IfOk result (λ entry. entry ≡ Some (2, 20)) }
{
    let map = Sums::from_pairs(alloc, &[(1, 10), (2, 20)])?;
    map.next(alloc, &1)
}

pub fn prev(alloc: Global) -> Result<Option<(u64, u64)>, NoMemory>
    ensures { IfOk result (λ entry. entry ≡ Some (1, 10)) }
{
    let map = Sums::from_pairs(alloc, &[(1, 10), (2, 20)])?;
    map.prev(alloc, &2)
}
