//! Changes of many entries: all of them removed, those at given keys, those of a range.
ghost use Rattle.std.specs.Prelude.{◌≡◌, ◌∷◌, [], IfOk};

use crate::Sums;
use aug_monoid::NoMemory;
use std::alloc::Global;

pub fn clear(alloc: Global) -> Result<Sums, NoMemory>
    ensures { IfOk result (λ map. map ≡ []) }
{
    let mut map = Sums::from_pairs(alloc, &[(1, 10), (2, 20)])?;
    map.clear();
    Ok(map)
}

pub fn remove_all(alloc: Global) -> Result<Sums, NoMemory>
    ensures { IfOk result (λ map. map ≡ (2, 20) ∷ []) }
{
    let mut map = Sums::from_pairs(alloc, &[(1, 10), (2, 20)])?;
    map.remove_all(alloc, &[3, 1])?;
    Ok(map)
}

pub fn extract_range(alloc: Global) -> Result<(Sums, Sums), NoMemory>
    ensures { IfOk result (λ maps. maps ≡ ((1, 10) ∷ (2, 20) ∷ [], (3, 30) ∷ [])) }
{
    let mut map = Sums::from_pairs(alloc, &[(1, 10), (2, 20), (3, 30)])?;
    let part = map.extract_range(alloc, &1, &2)?;
    Ok((part, map))
}
