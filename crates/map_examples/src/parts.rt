//! Parts of a map, and folds of them.
ghost use Rattle.std.specs.Prelude.{◌≡◌, ◌∷◌, [], IfOk};

use crate::Sums;
use aug_monoid::NoMemory;
use std::alloc::Global;

pub fn range(alloc: Global) -> Result<Sums, NoMemory>
    ensures { IfOk result (λ part. part ≡ (1, 10) ∷ (2, 20) ∷ []) }
{
    let map = Sums::from_pairs(alloc, &[(1, 10), (2, 20), (3, 30)])?;
    map.range(alloc, &1, &2)
}

pub fn below(alloc: Global) -> Result<Sums, NoMemory>
    ensures { IfOk result (λ part. part ≡ (1, 10) ∷ []) }
{
    let map = Sums::from_pairs(alloc, &[(1, 10), (2, 20), (3, 30)])?;
    map.below(alloc, &2)
}

pub fn above(alloc: Global) -> Result<Sums, NoMemory>
    ensures { IfOk result (λ part. part ≡ (3, 30) ∷ []) }
{
    let map = Sums::from_pairs(alloc, &[(1, 10), (2, 20), (3, 30)])?;
    map.above(alloc, &2)
}

pub fn at_least(alloc: Global) -> Result<Sums, NoMemory>
    ensures { IfOk result (λ part. part ≡ (2, 20) ∷ (3, 30) ∷ []) }
{
    let map = Sums::from_pairs(alloc, &[(1, 10), (2, 20), (3, 30)])?;
    map.at_least(alloc, &2)
}

pub fn split_off(alloc: Global) -> Result<(Sums, Sums), NoMemory>
    ensures { IfOk result (λ maps. maps ≡ ((2, 20) ∷ (3, 30) ∷ [], (1, 10) ∷ [])) }
{
    let mut map = Sums::from_pairs(alloc, &[(1, 10), (2, 20), (3, 30)])?;
    let high = map.split_off(alloc, &2)?;
    Ok((high, map))
}

pub fn fold_range(alloc: Global) -> Result<u64, NoMemory>
    ensures { IfOk result (λ sum. sum ≡ 30) }
{
    let map = Sums::from_pairs(alloc, &[(1, 10), (2, 20), (3, 30)])?;
    Ok(map.fold_range(alloc, &1, &2)?.sum)
}

pub fn fold_to(alloc: Global) -> Result<u64, NoMemory>
    ensures { IfOk result (λ greatest. greatest ≡ 20) }
{
    let map = Sums::from_pairs(alloc, &[(1, 10), (2, 20), (3, 30)])?;
    Ok(map.fold_to(alloc, &2)?.greatest)
}

pub fn fold_from(alloc: Global) -> Result<u64, NoMemory>
    ensures { IfOk result (λ sum. sum ≡ 50) }
{
    let map = Sums::from_pairs(alloc, &[(1, 10), (2, 20), (3, 30)])?;
    Ok(map.fold_from(alloc, &2)?.sum)
}
