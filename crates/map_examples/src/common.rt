//! How many keys two maps have in common.
ghost use Rattle.std.specs.Prelude.{◌≡◌, IfOk};

use crate::Sums;
use aug_monoid::NoMemory;
use std::alloc::Global;

pub fn intersection_len(alloc: Global) -> Result<u64, NoMemory>
    ensures { IfOk result (λ len. len ≡ 1) }
{
    let map = Sums::from_pairs(alloc, &[(1, 10), (2, 20)])?;
    let other = Sums::from_pairs(alloc, &[(2, 21), (3, 30)])?;
    Ok(map.intersection_len(&other))
}
