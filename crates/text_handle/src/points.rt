//! Single entries.
ghost use Rattle.std.specs.Prelude.{◌≡◌, IfOk, MatchResult, Some};
ghost use Rattle.std.specs.Option.{option_map};
ghost use Rattle.loose.specs.Statuses.{Becomes, Written};
ghost use Rattle.map_model.specs.Entries.{lookup, set};
ghost use Rattle.text_handle.specs.Keys.{Removes, Tests, bytes_cmp};
ghost use Rattle.text_handle.specs.Statuses.{Tells};

use crate::handle::{Handle, keep, take};
use crate::inner::Inner;
use aug_monoid::{Bytes, NoMemory};
use map_handle::status::{BAD_CALL, NO_MEMORY, NOT_THERE, OK};
use std::alloc::Global;

/// Sets a key to a value, in O(log n).
pub fn put(alloc: Global, map: &mut Handle, key: &[u8], val: u64) -> u8
    ensures { Becomes (option_map (λ m. set bytes_cmp m key.now val) map.old.entries) result map.old.entries map.new.entries }
{
    let Some(mut kept) = take(alloc, map) else {
        return BAD_CALL;
    };
    let status = put_entry(alloc, &mut kept, key, val);
    keep(map, kept);
    status
}

fn put_entry(alloc: Global, kept: &mut Inner, key: &[u8], val: u64) -> u8
    ensures { Becomes (Some (set bytes_cmp kept.old key.now val)) result (Some kept.old) (Some kept.new) }
{
    let Ok(key) = Bytes::from_slice(alloc, key) else {
        return NO_MEMORY;
    };
    match kept.map.put(alloc, key, val) {
        Ok(()) => OK,
        Err(_) => NO_MEMORY,
    }
}

/// Removes a key, in O(log n).
pub fn del(alloc: Global, map: &mut Handle, key: &[u8]) -> u8
    ensures { Removes key.now result map.old.entries map.new.entries }
{
    let Some(mut kept) = take(alloc, map) else {
        return BAD_CALL;
    };
    let status = del_key(alloc, &mut kept, key);
    keep(map, kept);
    status
}

fn del_key(alloc: Global, kept: &mut Inner, key: &[u8]) -> u8
    ensures { Removes key.now result (Some kept.old) (Some kept.new) }
{
    let Ok(key) = Bytes::from_slice(alloc, key) else {
        return NO_MEMORY;
    };
    match kept.map.get(alloc, &key) {
        Ok(Some(_)) => match kept.map.del(alloc, &key) {
            Ok(()) => OK,
            Err(_) => NO_MEMORY,
        },
        Ok(None) => NOT_THERE,
        Err(_) => NO_MEMORY,
    }
}

/// The value at a key, in O(log n).
pub fn get(alloc: Global, map: &mut Handle, key: &[u8], val: &mut u64) -> u8
    ensures answer { Tells (option_map (λ m. lookup bytes_cmp m key.now) map.old.entries) result val.old val.new }
    ensures same { map.new.entries ≡ map.old.entries }
{
    let Some(kept) = take(alloc, map) else {
        return BAD_CALL;
    };
    let found = value_at(alloc, &kept, key);
    keep(map, kept);
    written(found, val)
}

/// Whether a key is there, in O(log n): 0 where it is, and 1 where it isn't.
pub fn contains(alloc: Global, map: &mut Handle, key: &[u8]) -> u8
    ensures answer { Tests key.now result map.old.entries }
    ensures same { map.new.entries ≡ map.old.entries }
{
    let Some(kept) = take(alloc, map) else {
        return BAD_CALL;
    };
    let found = value_at(alloc, &kept, key);
    keep(map, kept);
    match found {
        Ok(Some(_)) => OK,
        Ok(None) => NOT_THERE,
        Err(_) => NO_MEMORY,
    }
}

fn value_at(alloc: Global, kept: &Inner, key: &[u8]) -> Result<Option<u64>, NoMemory>
    ensures { IfOk result (λ val. val ≡ lookup bytes_cmp kept.now key.now) }
{
    let key = Bytes::from_slice(alloc, key)?;
    kept.map.get(alloc, &key)
}

/// Writes what is found.
fn written(found: Result<Option<u64>, NoMemory>, val: &mut u64) -> u8
    ensures { MatchResult found (λ answer. Written answer result val.old val.new) (λ _. (result ≡ 7) × (val.new ≡ val.old)) }
{
    match found {
        Ok(Some(answer)) => {
            *val = answer;
            OK
        }
        Ok(None) => NOT_THERE,
        Err(_) => NO_MEMORY,
    }
}
