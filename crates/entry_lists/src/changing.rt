//! What has changed from one slice to another.
ghost use Rattle.std.specs.Prelude.{◌≡◌, [], ◌∷◌, ◌++◌, IfOk, OnOk, map};
ghost use Rattle.std.specs.List.{cons_option};
ghost use Rattle.map_model.specs.Entries.{IsIncreasing};
ghost use Rattle.entry_lists.specs.Changes.{change_at, changes};
ghost use Rattle.entry_lists.specs.declared.changing.Change.TheVariants as change;

use aug_monoid::{Key, NoMemory, Share};
use std::alloc::Global;
use std::cmp::Ordering;

/// What has changed at a key.
#[derive(Drop)]
pub enum Change<K, V> {
    /// The key came, with a value.
    Added { key: K, val: V },
    /// The key went, and had a value.
    Removed { key: K, val: V },
    /// The key has another value than it had.
    Updated { key: K, old: V, new: V },
}

fn push_added<K: Share, V: Share>(
    alloc: Global,
    into: &mut Vec<Change<K, V>>,
    entry: &(K, V),
) -> Result<(), NoMemory>
    ensures { OnOk result (into.new.items ≡ into.old.items ++ change.Added entry.now.0 entry.now.1 ∷ []) }
{
    let key = entry.0.share(alloc)?;
    let val = entry.1.share(alloc)?;
    into.push(Change::Added { key, val })?;
    Ok(())
}

fn push_removed<K: Share, V: Share>(
    alloc: Global,
    into: &mut Vec<Change<K, V>>,
    entry: &(K, V),
) -> Result<(), NoMemory>
    ensures { OnOk result (into.new.items ≡ into.old.items ++ change.Removed entry.now.0 entry.now.1 ∷ []) }
{
    let key = entry.0.share(alloc)?;
    let val = entry.1.share(alloc)?;
    into.push(Change::Removed { key, val })?;
    Ok(())
}

// Appends the change from one value of a key to another, if there is one.
fn push_updated<K: Share, V: Share + PartialEq>(
    alloc: Global,
    into: &mut Vec<Change<K, V>>,
    before: &(K, V),
    after: &(K, V),
) -> Result<(), NoMemory>
    ensures { OnOk result (into.new.items ≡ into.old.items ++ cons_option (change_at V.eq before.now.0 (Some before.now.1) (Some after.now.1)) []) }
{
    if before.1 == after.1 {
        return Ok(());
    }
    let key = before.0.share(alloc)?;
    let old = before.1.share(alloc)?;
    let new = after.1.share(alloc)?;
    into.push(Change::Updated { key, old, new })?;
    Ok(())
}

fn push_all_added<K: Share, V: Share>(
    alloc: Global,
    into: &mut Vec<Change<K, V>>,
    entries: &[(K, V)],
) -> Result<(), NoMemory>
    ensures { OnOk result (into.new.items ≡ into.old.items ++ map (λ e. change.Added e.0 e.1) entries.now) }
{
    for entry in entries {
        push_added(alloc, into, entry)?;
    }
    Ok(())
}

fn push_all_removed<K: Share, V: Share>(
    alloc: Global,
    into: &mut Vec<Change<K, V>>,
    entries: &[(K, V)],
) -> Result<(), NoMemory>
    ensures { OnOk result (into.new.items ≡ into.old.items ++ map (λ e. change.Removed e.0 e.1) entries.now) }
{
    for entry in entries {
        push_removed(alloc, into, entry)?;
    }
    Ok(())
}

/// The changes from one list of entries to another, in the order of the keys: the keys that came, that went, and that have another
/// value. Linear in both lengths. `NoMemory` for want of memory, and where the share of a key or a value refuses.
pub fn changes_of<K: Key, V: Share + PartialEq>(
    alloc: Global,
    old: &[(K, V)],
    new: &[(K, V)],
) -> Result<Vec<Change<K, V>>, NoMemory>
    requires old { IsIncreasing K.cmp old.now }
    requires new { IsIncreasing K.cmp new.now }
    ensures { IfOk result (λ out. out.items ≡ changes K.cmp V.eq old.now new.now) }
{
    let mut out = Vec::new(alloc);
    let (mut left, mut right) = (old, new);
    while let Some((before, others)) = left.split_first() {
        let Some((after, rest)) = right.split_first() else {
            break;
        };
        match before.0.cmp(&after.0) {
            Ordering::Less => {
                push_removed(alloc, &mut out, before)?;
                left = others;
            }
            Ordering::Equal => {
                push_updated(alloc, &mut out, before, after)?;
                left = others;
                right = rest;
            }
            Ordering::Greater => {
                push_added(alloc, &mut out, after)?;
                right = rest;
            }
        }
    }
    push_all_removed(alloc, &mut out, left)?;
    push_all_added(alloc, &mut out, right)?;
    Ok(out)
}
