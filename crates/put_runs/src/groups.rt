//! Of each key of a run of puts where it comes first, and the last entry.
ghost use Rattle.std.specs.Prelude.{◌≡◌, IfOk, slice_index_or};
ghost use Rattle.put_runs.specs.Places.{AreFirsts, AreLasts, begins_with, last_of_each, valued};

use crate::sorting::sorted_places;
use aug_monoid::NoMemory;
use sorted_lists::keep_first_of_each;
use std::alloc::Global;
use std::marker::Sync;
use std::thread::Threads;

/// The entries at the last of places in a row that have one key.
fn last_entries(
    alloc: Global,
    entries: &[(u64, u64)],
    places: &[(u64, u64)],
) -> Result<Vec<(u64, u64)>, NoMemory>
    ensures { IfOk result (λ lasts. lasts.items ≡ valued entries.now (last_of_each places.now)) }
{
    let mut lasts = Vec::with_capacity(alloc, places.len())?;
    let mut rest = places;
    while let Some(((key, place), later)) = rest.split_first() {
        if !begins_with(later, *key) {
            lasts.push((*key, value_at(entries, *place)))?;
        }
        rest = later;
    }
    Ok(lasts)
}

/// Whether the first of places has this key.
fn begins_with(places: &[(u64, u64)], key: u64) -> bool
    ensures { result ≡ begins_with places.now key }
{
    match places.first() {
        Some(first) => first.0 == key,
        None => false,
    }
}

/// The value at a place, and 0 where there is none.
fn value_at(entries: &[(u64, u64)], place: u64) -> u64
    ensures { result ≡ (slice_index_or entries.now place (0, 0)).1 }
{
    match entries.get(place as usize) {
        Some(entry) => entry.1,
        None => 0,
    }
}

/// Where each key of entries comes first, and the last entry of each, both by rising keys.
pub(crate) fn firsts_and_lasts<R: Threads + Sync>(
    rt: &R,
    alloc: Global,
    entries: &[(u64, u64)],
) -> Result<(Vec<(u64, u64)>, Vec<(u64, u64)>), NoMemory>
    ensures firsts { IfOk result (λ both. AreFirsts entries.now both.0.items) }
    ensures lasts { IfOk result (λ both. AreLasts entries.now both.1.items) }
{
    let mut places = sorted_places(rt, alloc, entries)?;
    let lasts = last_entries(alloc, entries, &places)?;
    keep_first_of_each(&mut places);
    Ok((places, lasts))
}
