//! The keys and the values as lists.
ghost use Rattle.std.specs.Prelude.{◌≡◌, ◌∷◌, [], IfOk};

use crate::Sums;
use aug_monoid::NoMemory;
use std::alloc::Global;

pub fn keys(alloc: Global) -> Result<Vec<u64>, NoMemory>
    ensures { IfOk result (λ keys. keys.items ≡ 1 ∷ 2 ∷ []) }
{
    let map = Sums::from_pairs(alloc, &[(1, 10), (2, 20)])?;
    map.keys(alloc)
}

pub fn values(alloc: Global) -> Result<Vec<u64>, NoMemory>
    ensures { IfOk result (λ vals. vals.items ≡ 10 ∷ 20 ∷ []) }
{
    let map = Sums::from_pairs(alloc, &[(1, 10), (2, 20)])?;
    map.values(alloc)
}
