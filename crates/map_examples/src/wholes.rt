//! Whole maps: of pairs, of two maps, and of the entries that pass a test.
ghost use Rattle.std.specs.Prelude.{◌≡◌, ◌∷◌, [], IfOk, false, true};

use crate::Sums;
use crate::asked::AtLeast;
use aug_monoid::{First, NoMemory, SatSum, Second};
use std::alloc::Global;

pub fn from_pairs(alloc: Global) -> Result<Sums, NoMemory>
    ensures { IfOk result (λ map. map ≡ (1, 10) ∷ (2, 21) ∷ []) }
{
    Sums::from_pairs(alloc, &[(2, 20), (1, 10), (2, 21)])
}

pub fn extend(alloc: Global) -> Result<Sums, NoMemory>
    ensures { IfOk result (λ map. map ≡ (1, 11) ∷ (2, 20) ∷ []) }
{
    let mut map = Sums::from_pairs(alloc, &[(1, 10)])?;
    map.extend(alloc, &[(2, 20), (1, 11)])?;
    Ok(map)
}

pub fn append(alloc: Global) -> Result<Sums, NoMemory>
    ensures { IfOk result (λ map. map ≡ (1, 11) ∷ (2, 20) ∷ []) }
{
    let mut map = Sums::from_pairs(alloc, &[(1, 10)])?;
    map.append(alloc, &Sums::from_pairs(alloc, &[(1, 11), (2, 20)])?)?;
    Ok(map)
}

pub fn union(alloc: Global) -> Result<Sums, NoMemory>
    ensures { IfOk result (λ both. both ≡ (1, 21) ∷ (2, 20) ∷ []) }
{
    let map = Sums::from_pairs(alloc, &[(1, 10)])?;
    let other = Sums::from_pairs(alloc, &[(1, 11), (2, 20)])?;
    map.union(alloc, &other, &SatSum)
}

pub fn union_all(alloc: Global) -> Result<Sums, NoMemory>
    ensures { IfOk result (λ all. all ≡ (1, 11) ∷ (2, 20) ∷ []) }
{
    let map = Sums::from_pairs(alloc, &[(1, 10)])?;
    let other = Sums::from_pairs(alloc, &[(1, 11), (2, 20)])?;
    Sums::union_all(alloc, &[map, other], &Second)
}

pub fn intersection(alloc: Global) -> Result<Sums, NoMemory>
    ensures { IfOk result (λ both. both ≡ (1, 10) ∷ []) }
{
    let map = Sums::from_pairs(alloc, &[(1, 10), (2, 20)])?;
    let other = Sums::from_pairs(alloc, &[(1, 11), (3, 30)])?;
    map.intersection(alloc, &other, &First)
}

pub fn difference(alloc: Global) -> Result<Sums, NoMemory>
    ensures { IfOk result (λ rest. rest ≡ (2, 20) ∷ []) }
{
    let map = Sums::from_pairs(alloc, &[(1, 10), (2, 20)])?;
    let other = Sums::from_pairs(alloc, &[(1, 11), (3, 30)])?;
    map.difference(alloc, &other)
}

pub fn symmetric_difference(alloc: Global) -> Result<Sums, NoMemory>
    ensures { IfOk result (λ either. either ≡ (2, 20) ∷ (3, 30) ∷ []) }
{
    let map = Sums::from_pairs(alloc, &[(1, 10), (2, 20)])?;
    let other = Sums::from_pairs(alloc, &[(1, 11), (3, 30)])?;
    map.symmetric_difference(alloc, &other)
}

pub fn is_subset(alloc: Global) -> Result<bool, NoMemory>
    ensures { IfOk result (λ yes. yes ≡ true) }
{
    let map = Sums::from_pairs(alloc, &[(1, 10)])?;
    let other = Sums::from_pairs(alloc, &[(1, 11), (2, 20)])?;
    map.is_subset(alloc, &other)
}

pub fn is_disjoint(alloc: Global) -> Result<bool, NoMemory>
    ensures { IfOk result (λ yes. yes ≡ false) }
{
    let map = Sums::from_pairs(alloc, &[(1, 10)])?;
    let other = Sums::from_pairs(alloc, &[(1, 11), (2, 20)])?;
    map.is_disjoint(alloc, &other)
}

pub fn retain(alloc: Global) -> Result<Sums, NoMemory>
    ensures { IfOk result (λ map. map ≡ (2, 20) ∷ []) }
{
    let mut map = Sums::from_pairs(alloc, &[(1, 10), (2, 20)])?;
    map.retain(alloc, &AtLeast { least: 20 })?;
    Ok(map)
}
