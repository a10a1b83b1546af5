//! The entries nearest to a key, with its own among them.
ghost use Rattle.std.specs.Prelude.{◌≡◌, IfOk, Some};

use crate::Sums;
use aug_monoid::NoMemory;
use std::alloc::Global;

pub fn floor(alloc: Global) -> Result<Option<(u64, u64)>, NoMemory>
    ensures { IfOk result (λ entry. entry ≡ Some (10, 1)) }
{
    let map = Sums::from_pairs(alloc, &[(10, 1), (20, 2)])?;
    map.floor(alloc, &12)
}

pub fn ceiling(alloc: Global) -> Result<Option<(u64, u64)>, NoMemory>
    ensures { IfOk result (λ entry. entry ≡ Some (20, 2)) }
{
    let map = Sums::from_pairs(alloc, &[(10, 1), (20, 2)])?;
    map.ceiling(alloc, &12)
}
