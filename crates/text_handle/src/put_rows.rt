//! Many entries at once, whose keys lie in a row.
ghost use Rattle.std.specs.Prelude.{◌≡◌, IfOk, IsTrue, None, Some, length};
ghost use Rattle.std.specs.Option.{option_map};
ghost use Rattle.loose.specs.Statuses.{Becomes};
ghost use Rattle.map_model.specs.Operations.{after, puts};
ghost use Rattle.text_handle.specs.Keys.{bytes_cmp};
ghost use Rattle.text_handle.specs.Rows.{are_ends, entries_from};

use crate::handle::{Handle, keep, take};
use crate::inner::Inner;
use aug_monoid::{Bytes, NoMemory};
use map_handle::status::{BAD_CALL, NO_MEMORY, OK};
use std::alloc::Global;

/// Puts entries in order, in O(m log(m + n)); a later value of a key wins. The first key begins at 0, and each other where the one
/// before it ends. It is a bad call where a key ends before it begins, or behind the last byte.
pub fn put_many(alloc: Global, map: &mut Handle, keys: &[u8], ends: &[usize], vals: &[u64]) -> u8
    ensures fit { length ends.now ≡ length vals.now → IsTrue (are_ends 0 (length keys.now) ends.now) → Becomes (option_map (λ m. after bytes_cmp m (puts (entries_from 0 keys.now ends.now vals.now))) map.old.entries) result map.old.entries map.new.entries }
    ensures unfit { ¬ (length ends.now ≡ length vals.now) → Becomes None result map.old.entries map.new.entries }
    ensures unordered { ¬ IsTrue (are_ends 0 (length keys.now) ends.now) → Becomes None result map.old.entries map.new.entries }
{
    if ends.len() != vals.len() {
        return BAD_CALL;
    }
    if !in_order(ends, keys.len()) {
        return BAD_CALL;
    }
    put_ordered(alloc, map, keys, ends, vals)
}

/// Whether no key ends before it begins, nor behind the last of so many bytes.
fn in_order(ends: &[usize], count: usize) -> bool
    ensures { result ≡ are_ends 0 count ends.now }
{
    let mut start = 0;
    for end in ends {
        if start > *end || *end > count {
            return false;
        }
        start = *end;
    }
    true
}

/// Puts entries whose keys lie in a row.
fn put_ordered(alloc: Global, map: &mut Handle, keys: &[u8], ends: &[usize], vals: &[u64]) -> u8
    requires length { length ends.now ≡ length vals.now }
    requires ordered { IsTrue (are_ends 0 (length keys.now) ends.now) }
    ensures { Becomes (option_map (λ m. after bytes_cmp m (puts (entries_from 0 keys.now ends.now vals.now))) map.old.entries) result map.old.entries map.new.entries }
{
    let Some(mut kept) = take(alloc, map) else {
        return BAD_CALL;
    };
    let status = put_entries(alloc, &mut kept, keys, ends, vals);
    keep(map, kept);
    status
}

fn put_entries(alloc: Global, kept: &mut Inner, keys: &[u8], ends: &[usize], vals: &[u64]) -> u8
    requires length { length ends.now ≡ length vals.now }
    requires ordered { IsTrue (are_ends 0 (length keys.now) ends.now) }
    ensures { Becomes (Some (after bytes_cmp kept.old (puts (entries_from 0 keys.now ends.now vals.now)))) result (Some kept.old) (Some kept.new) }
{
    let Ok(entries) = entries_of(alloc, keys, ends, vals) else {
        return NO_MEMORY;
    };
    match kept.map.extend(alloc, &entries) {
        Ok(()) => OK,
        Err(_) => NO_MEMORY,
    }
}

/// Entries whose keys lie in a row.
fn entries_of(
    alloc: Global,
    keys: &[u8],
    ends: &[usize],
    vals: &[u64],
) -> Result<Vec<(Bytes, u64)>, NoMemory>
    requires length { length ends.now ≡ length vals.now }
    requires ordered { IsTrue (are_ends 0 (length keys.now) ends.now) }
    ensures { IfOk result (λ entries. entries.items ≡ entries_from 0 keys.now ends.now vals.now) }
{
    let mut entries = Vec::new(alloc);
    let mut start = 0;
    for (at, end) in ends.iter().enumerate() {
        let key = Bytes::from_slice(alloc, &keys[start..*end])?;
        entries.push((key, vals[at]))?;
        start = *end;
    }
    Ok(entries)
}
