//! Entries that a test of folds finds, and answers that are made of all entries.
ghost use Rattle.std.specs.Prelude.{◌≡◌, ◌∷◌, [], IfOk, Some};

use crate::Sums;
use crate::asked::{AtLeast, Largest};
use aug_monoid::NoMemory;
use std::alloc::Global;

pub fn filter_fold(alloc: Global) -> Result<Sums, NoMemory>
    ensures { IfOk result (λ part. part ≡ (2, 20) ∷ (3, 30) ∷ []) }
{
    let map = Sums::from_pairs(alloc, &[(1, 10), (2, 20), (3, 30)])?;
    map.filter_fold(alloc, &AtLeast { least: 20 })
}

pub fn first_where(alloc: Global) -> Result<Option<(u64, u64)>, NoMemory>
    ensures { IfOk result (λ entry. entry ≡ Some (2, 20)) }
{
    let map = Sums::from_pairs(alloc, &[(1, 10), (2, 20), (3, 30)])?;
    map.first_where(alloc, &AtLeast { least: 20 })
}

pub fn to_vec(alloc: Global) -> Result<Vec<(u64, u64)>, NoMemory>
    ensures { IfOk result (λ list. list.items ≡ (1, 10) ∷ (2, 20) ∷ []) }
{
    let map = Sums::from_pairs(alloc, &[(1, 10), (2, 20)])?;
    map.to_vec(alloc)
}

pub fn map_reduce(alloc: Global) -> Result<u64, NoMemory>
    ensures { IfOk result (λ largest. largest ≡ 20) }
{
    let map = Sums::from_pairs(alloc, &[(1, 20), (2, 10)])?;
    map.map_reduce(alloc, &Largest)
}
