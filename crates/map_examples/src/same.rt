//! Whether two maps have the same entries.
ghost use Rattle.std.specs.Prelude.{◌≡◌, IfOk, false};

use crate::Sums;
use aug_monoid::NoMemory;
use std::alloc::Global;

pub fn same(alloc: Global) -> Result<bool, NoMemory>
    ensures { IfOk result (λ yes. yes ≡ false) }
{
    let map = Sums::from_pairs(alloc, &[(1, 10)])?;
    let other = Sums::from_pairs(alloc, &[(1, 11)])?;
    map.same(alloc, &other)
}
