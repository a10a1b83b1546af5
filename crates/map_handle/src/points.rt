//! Single entries.
ghost use Rattle.std.specs.Prelude.{◌≡◌, ◌⊎◌, IfOk, IsOk, None};
ghost use Rattle.std.specs.Option.{option_map};
ghost use Rattle.std.specs.Ordering.{nat_cmp};
ghost use Rattle.map_model.specs.Entries.{drop_key, lookup, set};
ghost use Rattle.map_handle.specs.Keys.{Lacks};
ghost use Rattle.loose.specs.Statuses.{Answers, Becomes, Written};

use crate::handle::{Handle, keep, take};
use crate::inner::Inner;
use crate::status::{BAD_CALL, NO_MEMORY, NOT_THERE, OK};
use aug_monoid::NoMemory;
use std::alloc::Global;

/// Sets a key to a value, in O(log n).
pub fn put(alloc: Global, map: &mut Handle, key: u64, val: u64) -> u8
    ensures { Becomes (option_map (λ m. set nat_cmp m key val) map.old.entries) result map.old.entries map.new.entries }
{
    let Some(mut kept) = take(alloc, map) else {
        return BAD_CALL;
    };
    let status = match kept.map.put(alloc, key, val) {
        Ok(()) => OK,
        Err(_) => NO_MEMORY,
    };
    keep(map, kept);
    status
}

/// Removes a key, in O(log n).
pub fn del(alloc: Global, map: &mut Handle, key: u64) -> u8
    ensures missing { Lacks key map.old.entries → (result ≡ 1) × (map.new.entries ≡ map.old.entries) }
    ensures removed { (Lacks key map.old.entries → ⊥) → Becomes (option_map (λ m. drop_key nat_cmp m key) map.old.entries) result map.old.entries map.new.entries }
{
    let Some(mut kept) = take(alloc, map) else {
        return BAD_CALL;
    };
    let status = removed(alloc, &mut kept, key);
    keep(map, kept);
    status
}

/// Removes a key that is there.
fn removed(alloc: Global, kept: &mut Inner, key: u64) -> u8
    ensures missing { lookup nat_cmp kept.old key ≡ None → (result ≡ 1) × (kept.new ≡ kept.old) }
    ensures removed { (lookup nat_cmp kept.old key ≡ None → ⊥) → ((result ≡ 0) × (kept.new ≡ drop_key nat_cmp kept.old key)) ⊎ ((result ≡ 7) × (kept.new ≡ kept.old)) }
{
    match kept.map.get(alloc, &key) {
        Ok(Some(_)) => match kept.map.del(alloc, &key) {
            Ok(()) => OK,
            Err(_) => NO_MEMORY,
        },
        Ok(None) => NOT_THERE,
        Err(_) => unreachable!(),
    }
}

/// The value at a key, in O(log n).
pub fn get(alloc: Global, map: &mut Handle, key: u64, val: &mut u64) -> u8
    ensures answer { Answers (option_map (λ m. lookup nat_cmp m key) map.old.entries) result val.old val.new }
    ensures same { map.new.entries ≡ map.old.entries }
{
    let Some(kept) = take(alloc, map) else {
        return BAD_CALL;
    };
    let found = kept.map.get(alloc, &key);
    keep(map, kept);
    written(found, val)
}

/// Writes what is found.
fn written(found: Result<Option<u64>, NoMemory>, val: &mut u64) -> u8
    requires { IsOk found }
    ensures { IfOk found (λ answer. Written answer result val.old val.new) }
{
    match found {
        Ok(Some(answer)) => {
            *val = answer;
            OK
        }
        Ok(None) => NOT_THERE,
        Err(_) => unreachable!(),
    }
}
