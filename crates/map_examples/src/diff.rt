//! What has changed from one map to another.
ghost use Rattle.std.specs.Prelude.{◌≡◌, ◌∷◌, [], IfOk};
ghost use Rattle.entry_lists.specs.declared.changing.Change.TheVariants.{Added, Updated};

use crate::Sums;
use aug_monoid::NoMemory;
use ord_map::Change;
use std::alloc::Global;

pub fn diff(alloc: Global) -> Result<Vec<Change<u64, u64>>, NoMemory>
    ensures { IfOk result (λ out. out.items ≡ Updated 1 10 11 ∷ Added 2 20 ∷ []) }
{
    let map = Sums::from_pairs(alloc, &[(1, 10)])?;
    let newer = Sums::from_pairs(alloc, &[(1, 11), (2, 20)])?;
    map.diff(alloc, &newer)
}
