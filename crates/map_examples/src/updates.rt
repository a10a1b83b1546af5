//! Changes of one entry.
ghost use Rattle.std.specs.Prelude.{◌≡◌, ◌∷◌, [], IfOk, Some};

use crate::Sums;
use aug_monoid::{NoMemory, SatSum};
use std::alloc::Global;

pub fn put(alloc: Global) -> Result<Sums, NoMemory>
    ensures { IfOk result (λ map. map ≡ (1, 11) ∷ []) }
{
    let mut map = Sums::from_pairs(alloc, &[(1, 10)])?;
    map.put(alloc, 1, 11)?;
    Ok(map)
}

pub fn insert(alloc: Global) -> Result<(Option<u64>, Sums), NoMemory>
    ensures { IfOk result (λ both. both ≡ (Some 10, (1, 11) ∷ [])) }
{
    let mut map = Sums::from_pairs(alloc, &[(1, 10)])?;
    let old = map.insert(alloc, 1, 11)?;
    Ok((old, map))
}

pub fn del(alloc: Global) -> Result<Sums, NoMemory>
    ensures { IfOk result (λ map. map ≡ (2, 20) ∷ []) }
{
    let mut map = Sums::from_pairs(alloc, &[(1, 10), (2, 20)])?;
    map.del(alloc, &1)?;
    Ok(map)
}

pub fn remove(alloc: Global) -> Result<(Option<u64>, Sums), NoMemory>
    ensures { IfOk result (λ both. both ≡ (Some 10, (2, 20) ∷ [])) }
{
    let mut map = Sums::from_pairs(alloc, &[(1, 10), (2, 20)])?;
    let old = map.remove(alloc, &1)?;
    Ok((old, map))
}

pub fn put_with(alloc: Global) -> Result<Sums, NoMemory>
    ensures { IfOk result (λ map. map ≡ (1, 15) ∷ []) }
{
    let mut map = Sums::from_pairs(alloc, &[(1, 10)])?;
    map.put_with(alloc, 1, 5, &SatSum)?;
    Ok(map)
}
