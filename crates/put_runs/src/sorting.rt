//! The places of entries, sorted by their keys.
ghost use Rattle.std.specs.Prelude.{◌≡◌, IfOk};
ghost use Rattle.std.specs.List.Sorted.{IsSortedByKey, IsStableByKey};
ghost use Rattle.std.specs.Ordering.{nat_cmp};
ghost use Rattle.put_runs.specs.Places.{placed};

use aug_monoid::NoMemory;
use sorted_lists::sorted_pairs;
use std::alloc::Global;
use std::marker::Sync;
use std::thread::Threads;

/// The keys of entries with their places.
fn places_of(alloc: Global, entries: &[(u64, u64)]) -> Result<Vec<(u64, u64)>, NoMemory>
    ensures { IfOk result (λ places. places.items ≡ placed 0 entries.now) }
{
    let mut places = Vec::with_capacity(alloc, entries.len())?;
    for (place, entry) in entries.iter().enumerate() {
        places.push((entry.0, place as u64))?;
    }
    Ok(places)
}

/// The keys of entries with their places, sorted stably by the keys. The sort uses all processors where there are many entries.
pub(crate) fn sorted_places<R: Threads + Sync>(
    rt: &R,
    alloc: Global,
    entries: &[(u64, u64)],
) -> Result<Vec<(u64, u64)>, NoMemory>
    ensures sorted { IfOk result (λ places. IsSortedByKey (λ e. e.0) nat_cmp places.items) }
    ensures stable { IfOk result (λ places. IsStableByKey (λ e. e.0) nat_cmp (placed 0 entries.now) places.items) }
{
    let places = places_of(alloc, entries)?;
    sorted_pairs(rt, alloc, places)
}
