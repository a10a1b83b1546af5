//! Maps of the same keys with other values.
ghost use Rattle.std.specs.Prelude.{◌≡◌, ◌∷◌, [], IfOk, false, true};

use crate::Sums;
use crate::asked::AtLeast;
use aug_monoid::{NoMemory, Nothing};
use ord_map::OrdMap;
use std::alloc::Global;

pub fn map_values(alloc: Global) -> Result<OrdMap<Nothing<u64, bool>>, NoMemory>
    ensures { IfOk result (λ large. large ≡ (1, false) ∷ (2, true) ∷ []) }
{
    let map = Sums::from_pairs(alloc, &[(1, 10), (2, 20)])?;
    map.map_values(alloc, &AtLeast { least: 20 })
}
