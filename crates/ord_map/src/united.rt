//! The union of many maps by a sort of their entries.
ghost use Rattle.std.specs.Prelude.{◌≡◌, [], ◌∷◌, false, IfOk, OnOk};
ghost use Rattle.std.specs.List.{fold};
ghost use Rattle.std.specs.List.Sorted.{IsSortedByKey};
ghost use Rattle.std.specs.Ordering.{is_lt};
ghost use Rattle.map_model.specs.Entries.{AllKeys, IsIncreasing};
ghost use Rattle.map_model.specs.SetOperations.{union};
ghost use Rattle.ord_map.specs.InTurn.{put_in_turn};

use crate::map::OrdMap;
use aug_map::PlainMap;
use aug_monoid::{Augment, Key, NoMemory, Resolve, Share};
use sorted_lists::sorted_pairs_alone;
use std::alloc::Global;

/// A list with more entries than these for each key that it had is resolved.
const LISTED_FOR_EACH_KEY: usize = 8;

/// Appends an entry whose key no other is above; where the last one has the key, its value becomes what `how` makes of both.
fn put_last<K: Key, V: Share, H: Resolve<V>>(
    alloc: Global,
    into: &mut Vec<(K, V)>,
    entry: (K, V),
    how: &H,
) -> Result<(), NoMemory>
    requires increasing { IsIncreasing K.cmp into.old.items }
    requires highest { AllKeys (λ k. is_lt (K.cmp entry.0 k) ≡ false) into.old.items }
    ensures { OnOk result (into.new.items ≡ union K.cmp (H.resolved how.now) into.old.items (entry ∷ [])) }
{
    let (key, val) = entry;
    let Some((last, old)) = into.pop() else {
        into.push((key, val))?;
        return Ok(());
    };
    if last.cmp(&key).is_eq() {
        let both = how.resolve(alloc, &old, &val)?;
        into.push((last, both))?;
        return Ok(());
    }
    into.push((last, old))?;
    into.push((key, val))?;
    Ok(())
}

/// Sorted entries as those of a map: at each key what `how` makes of its values, from the first on. O(n).
fn resolve_all<K: Key, V: Share, H: Resolve<V>>(
    alloc: Global,
    entries: Vec<(K, V)>,
    how: &H,
) -> Result<Vec<(K, V)>, NoMemory>
    requires { IsSortedByKey (λ e. e.0) K.cmp entries.items }
    ensures value { IfOk result (λ out. out.items ≡ put_in_turn K.cmp (H.resolved how.now) [] entries.items) }
    ensures increasing { IfOk result (λ out. IsIncreasing K.cmp out.items) }
{
    let mut out = Vec::with_capacity(alloc, entries.len())?;
    for entry in entries {
        put_last(alloc, &mut out, entry, how)?;
    }
    Ok(out)
}

/// Entries in any order as those of a map: at each key what `how` makes of its values, from the first on. O(n log n), and where the
/// list is of k runs by rising keys, O(n log k).
fn sort_and_resolve<K: Key, V: Share, H: Resolve<V>>(
    alloc: Global,
    entries: Vec<(K, V)>,
    how: &H,
) -> Result<Vec<(K, V)>, NoMemory>
    ensures value { IfOk result (λ out. out.items ≡ put_in_turn K.cmp (H.resolved how.now) [] entries.items) }
    ensures increasing { IfOk result (λ out. IsIncreasing K.cmp out.items) }
{
    let sorted = sorted_pairs_alone(alloc, entries)?;
    resolve_all(alloc, sorted, how)
}

/// A list as it is where there is room for it, else with its entries resolved, and then with room for more. Put in turn, its entries
/// make the same map.
fn resolve_if_many<K: Key, V: Share, H: Resolve<V>>(
    alloc: Global,
    entries: Vec<(K, V)>,
    room: &mut usize,
    how: &H,
) -> Result<Vec<(K, V)>, NoMemory>
    ensures { IfOk result (λ list. put_in_turn K.cmp (H.resolved how.now) [] list.items ≡ put_in_turn K.cmp (H.resolved how.now) [] entries.items) }
{
    if entries.len() <= *room {
        return Ok(entries);
    }
    let list = sort_and_resolve(alloc, entries, how)?;
    *room = list.len().saturating_mul(LISTED_FOR_EACH_KEY);
    Ok(list)
}

/// Entries that, put in turn, make the union of maps: those of one map after another, resolved whenever they are many more than their
/// keys. So they are never more than `LISTED_FOR_EACH_KEY` times the keys of the union so far and those of one map.
fn entries_of_all<A: Augment, H: Resolve<A::Val>>(
    alloc: Global,
    maps: &[OrdMap<A>],
    how: &H,
) -> Result<Vec<(A::Key, A::Val)>, NoMemory>
    ensures { IfOk result (λ all. put_in_turn A.Key.cmp (H.resolved how.now) [] all.items ≡ fold (λ all map. union A.Key.cmp (H.resolved how.now) all map) [] maps.now) }
{
    let mut all = Vec::new(alloc);
    let mut room = 0;
    for map in maps {
        let _number = map.len(); // for the proof alone: keys rise
        map.as_map().append_to(alloc, &mut all)?;
        all = resolve_if_many(alloc, all, &mut room, how)?;
    }
    Ok(all)
}

/// The union of maps by a stable sort of their entries. For n entries of k maps it takes O(n log n), and where the sort finds that each
/// map's keys rise, O(n log k).
pub(crate) fn union_by_sort<A: Augment, H: Resolve<A::Val>>(
    alloc: Global,
    maps: &[OrdMap<A>],
    how: &H,
) -> Result<OrdMap<A>, NoMemory>
    ensures { IfOk result (λ all. all ≡ fold (λ all map. union A.Key.cmp (H.resolved how.now) all map) [] maps.now) }
{
    let entries = entries_of_all(alloc, maps, how)?;
    let list = sort_and_resolve(alloc, entries, how)?;
    let map = PlainMap::empty().union_into_alone(alloc, &list, how)?;
    Ok(OrdMap { map })
}

/// The union of maps, one after the other.
pub(crate) fn union_in_turn<A: Augment, H: Resolve<A::Val>>(
    alloc: Global,
    maps: &[OrdMap<A>],
    how: &H,
) -> Result<OrdMap<A>, NoMemory>
    ensures { IfOk result (λ all. all ≡ fold (λ all map. union A.Key.cmp (H.resolved how.now) all map) [] maps.now) }
{
    let mut all = OrdMap::new();
    for map in maps {
        all = all.union(alloc, map, how)?;
    }
    Ok(all)
}

/// Whether one of the maps has at least as many entries as all others.
fn one_outweighs<A: Augment>(maps: &[OrdMap<A>]) -> bool {
    let mut all: u64 = 0;
    let mut most: u64 = 0;
    for map in maps {
        all = all.saturating_add(map.len());
        most = most.max(map.len());
    }
    most >= all.saturating_sub(most)
}

/// Whether all keys of a map are below those of another one.
fn is_before<A: Augment>(
    alloc: Global,
    map: &OrdMap<A>,
    other: &OrdMap<A>,
) -> Result<bool, NoMemory> {
    match (map.last(alloc)?, other.first(alloc)?) {
        (Some(last), Some(first)) => Ok(last.0 < first.0),
        _ => Ok(false),
    }
}

/// Whether the keys of each map are below those of the next one.
fn maps_rise<A: Augment>(alloc: Global, maps: &[OrdMap<A>]) -> Result<bool, NoMemory> {
    for at in 1..maps.len() {
        if !is_before(alloc, &maps[at - 1], &maps[at])? {
            return Ok(false);
        }
    }
    Ok(true)
}

/// Whether maps are united faster one after the other than by a sort of their entries: where they share no range of keys, or one of
/// them has most entries.
pub(crate) fn is_faster_in_turn<A: Augment>(
    alloc: Global,
    maps: &[OrdMap<A>],
) -> Result<bool, NoMemory> {
    Ok(one_outweighs(maps) || maps_rise(alloc, maps)?)
}
