//! Maps cut at a key, and joined, with counters of their own.
ghost use Rattle.std.specs.Prelude.{◌≡◌, ◌∷◌, ◌++◌, IfOk};
ghost use Rattle.std.specs.List.{cons_option};
ghost use Rattle.std.specs.Ordering.{nat_cmp};
ghost use Rattle.map_model.specs.Entries.{IsIncreasing, above, below, lookup};
ghost use Rattle.aug_monoid.specs.Fresh.{IsFresh};

use crate::applying::ServedMap;
use aug_monoid::{NoMemory, Steps};
use std::alloc::Global;
use std::marker::Brand;
use std::sync::ledger::{Blank, Ledger};

/// The entries below a key, the value at it, and the entries above it.
#[derive(Drop)]
pub(crate) struct Sides {
    pub(crate) below: ServedMap,
    pub(crate) found: Option<u64>,
    pub(crate) above: ServedMap,
}

/// What stands below a key, at it and above it, in time linear in the height.
pub(crate) fn sides_of(alloc: Global, map: &ServedMap, key: u64) -> Result<Sides, NoMemory>
    ensures below { IfOk result (λ sides. sides.below.entries ≡ below nat_cmp map.now.entries key) }
    ensures found { IfOk result (λ sides. sides.found ≡ lookup nat_cmp map.now.entries key) }
    ensures above { IfOk result (λ sides. sides.above.entries ≡ above nat_cmp map.now.entries key) }
{
    sides_counted::<Brand>(alloc, map, key, Blank::new(1))
}

fn sides_counted<C: Ledger>(
    alloc: Global,
    map: &ServedMap,
    key: u64,
    blank: Blank,
) -> Result<Sides, NoMemory>
    requires { IsFresh C.name C.parts blank }
    ensures below { IfOk result (λ sides. sides.below.entries ≡ below nat_cmp map.now.entries key) }
    ensures found { IfOk result (λ sides. sides.found ≡ lookup nat_cmp map.now.entries key) }
    ensures above { IfOk result (λ sides. sides.above.entries ≡ above nat_cmp map.now.entries key) }
{
    let mut steps = Steps::<C>::start(blank);
    let parts = map.split(alloc, &key, &mut steps)?;
    Ok(Sides {
        below: parts.below,
        found: parts.found,
        above: parts.above,
    })
}

/// The map of two maps and the entry between them, where there is one, in time linear in the heights.
pub(crate) fn join_around(
    alloc: Global,
    left: &ServedMap,
    middle: Option<(u64, u64)>,
    right: &ServedMap,
) -> Result<ServedMap, NoMemory>
    requires { IsIncreasing nat_cmp (left.now.entries ++ cons_option middle right.now.entries) }
    ensures { IfOk result (λ map. map.entries ≡ left.now.entries ++ cons_option middle right.now.entries) }
{
    match middle {
        Some((key, val)) => joined::<Brand>(alloc, left, key, val, right, Blank::new(1)),
        None => appended::<Brand>(alloc, left, right, Blank::new(1)),
    }
}

/// The map of two maps and an entry between them.
fn joined<C: Ledger>(
    alloc: Global,
    left: &ServedMap,
    key: u64,
    val: u64,
    right: &ServedMap,
    blank: Blank,
) -> Result<ServedMap, NoMemory>
    requires increasing { IsIncreasing nat_cmp (left.now.entries ++ (key, val) ∷ right.now.entries) }
    requires fresh { IsFresh C.name C.parts blank }
    ensures { IfOk result (λ map. map.entries ≡ left.now.entries ++ (key, val) ∷ right.now.entries) }
{
    let mut steps = Steps::<C>::start(blank);
    ServedMap::join(alloc, left, key, val, right, &mut steps)
}

/// The map of two maps, the first before the second.
#[tactic(auto, using(crate::proofs::Wipes::ends_apart))]
fn appended<C: Ledger>(
    alloc: Global,
    left: &ServedMap,
    right: &ServedMap,
    blank: Blank,
) -> Result<ServedMap, NoMemory>
    requires increasing { IsIncreasing nat_cmp (left.now.entries ++ right.now.entries) }
    requires fresh { IsFresh C.name C.parts blank }
    ensures { IfOk result (λ map. map.entries ≡ left.now.entries ++ right.now.entries) }
{
    let mut steps = Steps::<C>::start(blank);
    ServedMap::join2(alloc, left, right, &mut steps)
}
