//! Entries that are handed over, merged with a slice.
ghost use Rattle.std.specs.Prelude.{◌≡◌, [], ◌∷◌, ◌++◌, IfOk, OnOk};
ghost use Rattle.std.specs.Option.{option_map, option_map_or};
ghost use Rattle.map_model.specs.Entries.{IsIncreasing};
ghost use Rattle.map_model.specs.SetOperations.{union};

use crate::putting::put_each;
use aug_monoid::{Key, NoMemory, Resolve, Share, Steps};
use entry_lists::{SliceParts, cut_front, push_all_shared};
use std::alloc::Global;
use std::sync::ledger::Ledger;

/// No more entries than this are put one by one.
const FEW_ENTRIES: usize = 16;

/// The value that a key has after it had another one: what `how` makes of both, or that one where there is no other.
pub(crate) fn resolved<V: Drop, H: Resolve<V>>(
    alloc: Global,
    old: V,
    new: Option<&V>,
    how: &H,
) -> Result<V, NoMemory>
    ensures { IfOk result (λ val. val ≡ option_map_or (λ v. H.resolved how.now old v) (option_map (λ v. v.now) new.entry) old) }
{
    match new {
        Some(new) => how.resolve(alloc, &old, new),
        None => Ok(old),
    }
}

/// The entries of the vector or the slice. At a key of both the value is what `how` makes of the value in the vector and the
/// value in the slice. The other entries of the vector are moved, and those of the slice shared. Few entries are put one by one into
/// many, and others merged in one pass. O(m + k) for m entries and a slice of k.
pub(crate) fn merge_into<K: Key, V: Share, H: Resolve<V>, C: Ledger>(
    alloc: Global,
    entries: Vec<(K, V)>,
    few: &[(K, V)],
    how: &H,
    steps: &mut Steps<C>,
) -> Result<Vec<(K, V)>, NoMemory>
    requires first { IsIncreasing K.cmp entries.items }
    requires second { IsIncreasing K.cmp few.now }
    ensures { IfOk result (λ v. v.items ≡ union K.cmp (H.resolved how.now) entries.items few.now) }
{
    if few.len() <= FEW_ENTRIES.min(entries.len() / 4) {
        return put_each(alloc, entries, few, how, steps);
    }
    merge_in_pass(alloc, entries, few, how, steps)
}

/// The same, in one pass over both.
fn merge_in_pass<K: Key, V: Share, H: Resolve<V>, C: Ledger>(
    alloc: Global,
    entries: Vec<(K, V)>,
    few: &[(K, V)],
    how: &H,
    steps: &mut Steps<C>,
) -> Result<Vec<(K, V)>, NoMemory>
    requires first { IsIncreasing K.cmp entries.items }
    requires second { IsIncreasing K.cmp few.now }
    ensures { IfOk result (λ v. v.items ≡ union K.cmp (H.resolved how.now) entries.items few.now) }
{
    let mut out = Vec::with_capacity(alloc, entries.len().saturating_add(few.len()))?;
    let mut rest = few;
    for entry in entries {
        let parts = cut_front(rest, &entry.0, steps);
        rest = parts.above;
        push_merged(alloc, &mut out, entry, parts, how)?;
    }
    push_all_shared(alloc, &mut out, rest)?;
    Ok(out)
}

/// Appends what of the slice is below the key of an entry, and the entry with its value resolved.
fn push_merged<K: Key, V: Share, H: Resolve<V>>(
    alloc: Global,
    into: &mut Vec<(K, V)>,
    entry: (K, V),
    parts: SliceParts<'_, K, V>,
    how: &H,
) -> Result<(), NoMemory>
    ensures { OnOk result (into.new.items ≡ (into.old.items ++ parts.entry.below.now) ++ (entry.0, option_map_or (λ v. H.resolved how.now entry.1 v) (option_map (λ v. v.now) parts.entry.found) entry.1) ∷ []) }
{
    push_all_shared(alloc, into, parts.below)?;
    let (key, old) = entry;
    let val = resolved(alloc, old, parts.found, how)?;
    into.push((key, val))?;
    Ok(())
}
