//! To and from the maps of `aug_map`.
ghost use Rattle.std.specs.Prelude.{◌≡◌, ◌∷◌, [], IfOk};

use crate::Sums;
use aug_map::PlainMap;
use aug_monoid::{NoMemory, SatSum};
use fork_join::{Cut, FreeGate};
use std::alloc::Global;
use std::marker::Sync;
use std::thread::Threads;

pub fn as_map<R: Threads + Sync>(rt: &R, alloc: Global) -> Result<Sums, NoMemory>
    ensures { IfOk result (λ twice. twice ≡ (1, 20) ∷ (2, 40) ∷ []) }
{
    let map = Sums::from_pairs(alloc, &[(1, 10), (2, 20)])?;
    let cut = Cut::new(4, 1024);
    let twice = map
        .as_map()
        .union(rt, alloc, &FreeGate, cut, map.as_map(), &SatSum)?;
    Ok(Sums::from_map(twice))
}

pub fn into_map(alloc: Global) -> Result<u64, NoMemory>
    ensures { IfOk result (λ size. size ≡ 2) }
{
    let map = Sums::from_pairs(alloc, &[(1, 10), (2, 20)])?;
    Ok(map.into_map().size())
}

pub fn from_map(alloc: Global) -> Result<Sums, NoMemory>
    ensures { IfOk result (λ map. map ≡ (1, 10) ∷ (2, 20) ∷ []) }
{
    let map = PlainMap::build_alone(alloc, &[(1, 10), (2, 20)])?;
    Ok(Sums::from_map(map))
}
