//! Keys with their places, and answers put back to places.
ghost use Rattle.std.specs.Prelude.{◌≡◌, ◌++◌, IfOk, fold, length, map, slice_set};
ghost use Rattle.std.specs.List.Sorted.{IsSortedByKey, IsStableByKey};
ghost use Rattle.tree_many.specs.Places.{placed};

use crate::answers::Answer;
use aug_monoid::{Key, NoMemory};
use sorted_lists::sorted_pairs_alone;
use std::alloc::Global;

/// Keys with their places.
pub(crate) fn places_of<K: Key>(alloc: Global, keys: &[K]) -> Result<Vec<(K, usize)>, NoMemory>
    ensures { IfOk result (λ places. places.items ≡ placed 0 keys.now) }
{
    let mut places = Vec::with_capacity(alloc, keys.len())?;
    for (place, key) in keys.iter().enumerate() {
        places.push((key.share(alloc)?, place))?;
    }
    Ok(places)
}

/// Keys with their places, sorted stably by the keys.
pub(crate) fn sorted_places<K: Key>(alloc: Global, keys: &[K]) -> Result<Vec<(K, usize)>, NoMemory>
    ensures sorted { IfOk result (λ places. IsSortedByKey (λ e. e.0) K.cmp places.items) }
    ensures stable { IfOk result (λ places. IsStableByKey (λ e. e.0) K.cmp (placed 0 keys.now) places.items) }
{
    let places = places_of(alloc, keys)?;
    sorted_pairs_alone(alloc, places)
}

/// As many answers as there are keys, each that nothing stands there.
pub(crate) fn all_missing<K: Key, V, W: Answer<V>>(
    alloc: Global,
    keys: &[K],
) -> Result<Vec<W::Out>, NoMemory>
    ensures { IfOk result (λ outs. length outs.items ≡ length keys.now) }
{
    let mut outs = Vec::with_capacity(alloc, keys.len())?;
    for _key in keys {
        outs.push(W::missing())?;
    }
    Ok(outs)
}

/// A list with values put to their places. O(n) for n values.
pub(crate) fn put_back<T: Drop>(list: Vec<T>, values: Vec<(usize, T)>) -> Vec<T>
    ensures { result.items ≡ fold (λ xs e. slice_set xs e.0 e.1) list.items values.items }
{
    let mut list = list;
    for (place, value) in values {
        if let Some(slot) = list.get_mut(place) {
            *slot = value;
        }
    }
    list
}

/// Appends values without their places to a list. O(n) for n values.
pub(crate) fn push_values<T: Drop>(
    list: &mut Vec<T>,
    values: Vec<(usize, T)>,
) -> Result<(), NoMemory>
    ensures { IfOk result (λ _. list.new.items ≡ list.old.items ++ map (λ e. e.1) values.items) }
{
    for (_place, value) in values {
        list.push(value)?;
    }
    Ok(())
}
