//! Entries that are put into a vector of entries in place.
ghost use Rattle.std.specs.Prelude.{◌≡◌, ◌≤◌, [], ◌∷◌, ◌++◌, length, take, drop, IfOk, OnOk};
ghost use Rattle.map_model.specs.Entries.{IsIncreasing};
ghost use Rattle.map_model.specs.SetOperations.{union};

use aug_monoid::{Key, NoMemory, Resolve, Share, Steps, share_entry};
use entry_lists::cut_slice;
use std::alloc::Global;
use std::sync::ledger::Ledger;

/// Inserts an entry at a place. A full vector grows by a quarter, since a block has twice its least size at most.
fn insert_entry<K: Drop, V: Drop>(
    entries: &mut Vec<(K, V)>,
    at: usize,
    entry: (K, V),
) -> Result<(), NoMemory>
    requires { at ≤ length entries.old.items }
    ensures { OnOk result (entries.new.items ≡ take at entries.old.items ++ entry ∷ drop at entries.old.items) }
{
    let count = entries.len();
    if count == entries.capacity() {
        entries.reserve_exact(count / 4 + 1)?;
    }
    entries.insert(at, entry)?;
    Ok(())
}

/// Puts another owner of an entry at its place. At a key that is there the value becomes what `how` makes of it and the entry's.
/// O(log m) comparisons for m entries; what is behind a new entry moves at once.
fn put_entry<K: Key, V: Share, H: Resolve<V>, C: Ledger>(
    alloc: Global,
    entries: &mut Vec<(K, V)>,
    entry: &(K, V),
    how: &H,
    steps: &mut Steps<C>,
) -> Result<(), NoMemory>
    requires { IsIncreasing K.cmp entries.old.items }
    ensures { OnOk result (entries.new.items ≡ union K.cmp (H.resolved how.now) entries.old.items (entry.now ∷ [])) }
{
    let parts = cut_slice(entries, &entry.0, steps);
    let at = parts.below.len();
    let Some(old) = parts.found else {
        let shared = share_entry::<K, V>(alloc, &entry.0, &entry.1)?;
        return insert_entry(entries, at, shared);
    };
    let val = how.resolve(alloc, old, &entry.1)?;
    entries[at].1 = val;
    Ok(())
}

/// The entries of the vector or the slice, where each entry of the slice is put into the vector. O(k * log m) comparisons for m
/// entries and a slice of k.
pub(crate) fn put_each<K: Key, V: Share, H: Resolve<V>, C: Ledger>(
    alloc: Global,
    entries: Vec<(K, V)>,
    few: &[(K, V)],
    how: &H,
    steps: &mut Steps<C>,
) -> Result<Vec<(K, V)>, NoMemory>
    requires first { IsIncreasing K.cmp entries.items }
    requires second { IsIncreasing K.cmp few.now }
    ensures { IfOk result (λ v. v.items ≡ union K.cmp (H.resolved how.now) entries.items few.now) }
{
    let mut out = entries;
    for entry in few {
        put_entry(alloc, &mut out, entry, how, steps)?;
    }
    Ok(out)
}
