//! Many questions at once.
ghost use Rattle.std.specs.Prelude.{◌≡◌, ◌∷◌, [], IfOk, None, Some, false, true};
ghost use Rattle.aug_monoid.specs.Totals.{totals};

use crate::Sums;
use aug_monoid::{NoMemory, Totals};
use std::alloc::Global;

pub fn get_many(alloc: Global) -> Result<Vec<Option<u64>>, NoMemory>
    ensures { IfOk result (λ vals. vals.items ≡ None ∷ Some 10 ∷ None ∷ []) }
{
    let map = Sums::from_pairs(alloc, &[(1, 10), (2, 20)])?;
    map.get_many(alloc, &[3, 1, 3])
}

pub fn contains_many(alloc: Global) -> Result<Vec<bool>, NoMemory>
    ensures { IfOk result (λ found. found.items ≡ false ∷ true ∷ []) }
{
    let map = Sums::from_pairs(alloc, &[(1, 10), (2, 20)])?;
    map.contains_many(alloc, &[3, 1])
}

pub fn fold_many(alloc: Global) -> Result<Vec<Totals>, NoMemory>
    ensures { IfOk result (λ folds. folds.items ≡ totals 30 20 ∷ totals 20 20 ∷ []) }
{
    let map = Sums::from_pairs(alloc, &[(1, 10), (2, 20)])?;
    map.fold_many(alloc, &[(1, 2), (2, 2)])
}
