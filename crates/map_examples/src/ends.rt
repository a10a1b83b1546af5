//! Entries taken from the ends of a map.
ghost use Rattle.std.specs.Prelude.{◌≡◌, ◌∷◌, [], IfOk, Some};

use crate::Sums;
use aug_monoid::NoMemory;
use std::alloc::Global;

pub fn pop_first(alloc: Global) -> Result<(Option<(u64, u64)>, Sums), NoMemory>
    ensures { IfOk result (λ both. both ≡ (Some (1, 10), (2, 20) ∷ [])) }
{
    let mut map = Sums::from_pairs(alloc, &[(1, 10), (2, 20)])?;
    let entry = map.pop_first(alloc)?;
    Ok((entry, map))
}

pub fn pop_last(alloc: Global) -> Result<(Option<(u64, u64)>, Sums), NoMemory>
    ensures { IfOk result (λ both. both ≡ (Some (2, 20), (1, 10) ∷ [])) }
{
    let mut map = Sums::from_pairs(alloc, &[(1, 10), (2, 20)])?;
    let entry = map.pop_last(alloc)?;
    Ok((entry, map))
}
