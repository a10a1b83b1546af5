//! The calls on whole maps that fork over the halves of their work.
ghost use Rattle.std.specs.Prelude.{◌≡◌, ◌∷◌, [], IfOk};

use crate::Sums;
use crate::asked::{AtLeast, Largest};
use aug_monoid::{First, NoMemory, SatSum};
use fork_join::{Gate, On};
use std::alloc::Global;
use std::marker::Sync;
use std::thread::Threads;

pub fn from_pairs_on<R: Threads + Sync, G: Gate>(
    on: On<R, G>,
    alloc: Global,
) -> Result<Sums, NoMemory>
    ensures { IfOk result (λ map. map ≡ (1, 10) ∷ (2, 21) ∷ []) }
{
    Sums::from_pairs_on(on, alloc, &[(2, 20), (1, 10), (2, 21)])
}

pub fn extend_on<R: Threads + Sync, G: Gate>(on: On<R, G>, alloc: Global) -> Result<Sums, NoMemory>
    ensures { IfOk result (λ map. map ≡ (1, 11) ∷ (2, 20) ∷ []) }
{
    let mut map = Sums::from_pairs(alloc, &[(1, 10)])?;
    map.extend_on(on, alloc, &[(2, 20), (1, 11)])?;
    Ok(map)
}

pub fn remove_all_on<R: Threads + Sync, G: Gate>(
    on: On<R, G>,
    alloc: Global,
) -> Result<Sums, NoMemory>
    ensures { IfOk result (λ map. map ≡ (2, 20) ∷ []) }
{
    let mut map = Sums::from_pairs(alloc, &[(1, 10), (2, 20)])?;
    map.remove_all_on(on, alloc, &[3, 1])?;
    Ok(map)
}

pub fn append_on<R: Threads + Sync, G: Gate>(on: On<R, G>, alloc: Global) -> Result<Sums, NoMemory>
    ensures { IfOk result (λ map. map ≡ (1, 11) ∷ (2, 20) ∷ []) }
{
    let mut map = Sums::from_pairs(alloc, &[(1, 10)])?;
    map.append_on(on, alloc, &Sums::from_pairs(alloc, &[(1, 11), (2, 20)])?)?;
    Ok(map)
}

pub fn union_on<R: Threads + Sync, G: Gate>(on: On<R, G>, alloc: Global) -> Result<Sums, NoMemory>
    ensures { IfOk result (λ both. both ≡ (1, 21) ∷ (2, 20) ∷ []) }
{
    let map = Sums::from_pairs(alloc, &[(1, 10)])?;
    let other = Sums::from_pairs(alloc, &[(1, 11), (2, 20)])?;
    map.union_on(on, alloc, &other, &SatSum)
}

pub fn intersection_on<R: Threads + Sync, G: Gate>(
    on: On<R, G>,
    alloc: Global,
) -> Result<Sums, NoMemory>
    ensures { IfOk result (λ both. both ≡ (1, 10) ∷ []) }
{
    let map = Sums::from_pairs(alloc, &[(1, 10), (2, 20)])?;
    let other = Sums::from_pairs(alloc, &[(1, 11), (3, 30)])?;
    map.intersection_on(on, alloc, &other, &First)
}

pub fn difference_on<R: Threads + Sync, G: Gate>(
    on: On<R, G>,
    alloc: Global,
) -> Result<Sums, NoMemory>
    ensures { IfOk result (λ rest. rest ≡ (2, 20) ∷ []) }
{
    let map = Sums::from_pairs(alloc, &[(1, 10), (2, 20)])?;
    let other = Sums::from_pairs(alloc, &[(1, 11), (3, 30)])?;
    map.difference_on(on, alloc, &other)
}

pub fn retain_on<R: Threads + Sync, G: Gate>(on: On<R, G>, alloc: Global) -> Result<Sums, NoMemory>
    ensures { IfOk result (λ map. map ≡ (2, 20) ∷ []) }
{
    let mut map = Sums::from_pairs(alloc, &[(1, 10), (2, 20)])?;
    map.retain_on(on, alloc, &AtLeast { least: 20 })?;
    Ok(map)
}

pub fn map_reduce_on<R: Threads + Sync, G: Gate>(
    on: On<R, G>,
    alloc: Global,
) -> Result<u64, NoMemory>
    ensures { IfOk result (λ largest. largest ≡ 20) }
{
    let map = Sums::from_pairs(alloc, &[(1, 20), (2, 10)])?;
    map.map_reduce_on(on, alloc, &Largest)
}
