//! What a map tells: its size, and its entries by place and by key.
ghost use Rattle.std.specs.Prelude.{◌≡◌, IfOk, IsOk, Some, length};
ghost use Rattle.std.specs.Option.{option_map};
ghost use Rattle.std.specs.Ordering.{nat_cmp};
ghost use Rattle.map_model.specs.Parts.{next, prev, rank, select, slice};
ghost use Rattle.ord_map.specs.Ends.{last};
ghost use Rattle.loose.specs.Statuses.{Answers, Written};

use crate::handle::{Handle, keep, take};
use crate::inner::Inner;
use crate::status::{BAD_CALL, NOT_THERE, OK};
use aug_monoid::NoMemory;
use std::alloc::Global;

/// How many entries there are, in O(1).
pub fn len(alloc: Global, map: &mut Handle, count: &mut u64) -> u8
    ensures answer { Answers (option_map (λ m. Some (length m)) map.old.entries) result count.old count.new }
    ensures same { map.new.entries ≡ map.old.entries }
{
    let Some(kept) = take(alloc, map) else {
        return BAD_CALL;
    };
    *count = kept.map.len();
    keep(map, kept);
    OK
}

/// How many keys are less than `key`, in O(log n).
pub fn rank(alloc: Global, map: &mut Handle, key: u64, count: &mut u64) -> u8
    ensures answer { Answers (option_map (λ m. Some (rank nat_cmp m key)) map.old.entries) result count.old count.new }
    ensures same { map.new.entries ≡ map.old.entries }
{
    let Some(kept) = take(alloc, map) else {
        return BAD_CALL;
    };
    *count = kept.map.rank(&key);
    keep(map, kept);
    OK
}

/// How many entries have keys from `lo` to `hi`, both included, in O(log n).
pub fn count(alloc: Global, map: &mut Handle, lo: u64, hi: u64, count: &mut u64) -> u8
    ensures answer { Answers (option_map (λ m. Some (length (slice nat_cmp m lo hi))) map.old.entries) result count.old count.new }
    ensures same { map.new.entries ≡ map.old.entries }
{
    let Some(kept) = take(alloc, map) else {
        return BAD_CALL;
    };
    *count = count_within(&kept, lo, hi);
    keep(map, kept);
    OK
}

/// How many entries have keys from `lo` to `hi`.
pub(crate) fn count_within(kept: &Inner, lo: u64, hi: u64) -> u64
    ensures { result ≡ length (slice nat_cmp kept.now lo hi) }
{
    if lo > hi {
        return 0;
    }
    kept.map.count_to(&hi) - kept.map.rank(&lo)
}

/// The entry at a place, counted from 0, in O(log n).
pub fn select(alloc: Global, map: &mut Handle, at: u64, key: &mut u64, val: &mut u64) -> u8
    ensures answer { Answers (option_map (λ m. select m at) map.old.entries) result (key.old, val.old) (key.new, val.new) }
    ensures same { map.new.entries ≡ map.old.entries }
{
    let Some(kept) = take(alloc, map) else {
        return BAD_CALL;
    };
    let found = kept.map.select(alloc, at);
    keep(map, kept);
    written(found, key, val)
}

/// The entry with the least key greater than `than`, in O(log n).
pub fn next(alloc: Global, map: &mut Handle, than: u64, key: &mut u64, val: &mut u64) -> u8
    ensures answer { Answers (option_map (λ m. next nat_cmp m than) map.old.entries) result (key.old, val.old) (key.new, val.new) }
    ensures same { map.new.entries ≡ map.old.entries }
{
    let Some(kept) = take(alloc, map) else {
        return BAD_CALL;
    };
    let found = kept.map.next(alloc, &than);
    keep(map, kept);
    written(found, key, val)
}

/// The entry with the greatest key less than `than`, in O(log n).
pub fn prev(alloc: Global, map: &mut Handle, than: u64, key: &mut u64, val: &mut u64) -> u8
    ensures answer { Answers (option_map (λ m. prev nat_cmp m than) map.old.entries) result (key.old, val.old) (key.new, val.new) }
    ensures same { map.new.entries ≡ map.old.entries }
{
    let Some(kept) = take(alloc, map) else {
        return BAD_CALL;
    };
    let found = kept.map.prev(alloc, &than);
    keep(map, kept);
    written(found, key, val)
}

/// The entry with the least key, in O(log n).
pub fn first(alloc: Global, map: &mut Handle, key: &mut u64, val: &mut u64) -> u8
    ensures answer { Answers (option_map (λ m. select m 0) map.old.entries) result (key.old, val.old) (key.new, val.new) }
    ensures same { map.new.entries ≡ map.old.entries }
{
    let Some(kept) = take(alloc, map) else {
        return BAD_CALL;
    };
    let found = kept.map.first(alloc);
    keep(map, kept);
    written(found, key, val)
}

/// The entry with the greatest key, in O(log n).
pub fn last(alloc: Global, map: &mut Handle, key: &mut u64, val: &mut u64) -> u8
    ensures answer { Answers (option_map (λ m. last m) map.old.entries) result (key.old, val.old) (key.new, val.new) }
    ensures same { map.new.entries ≡ map.old.entries }
{
    let Some(kept) = take(alloc, map) else {
        return BAD_CALL;
    };
    let found = kept.map.last(alloc);
    keep(map, kept);
    written(found, key, val)
}

/// Writes the entry that is found.
fn written(found: Result<Option<(u64, u64)>, NoMemory>, key: &mut u64, val: &mut u64) -> u8
    requires { IsOk found }
    ensures { IfOk found (λ answer. Written answer result (key.old, val.old) (key.new, val.new)) }
{
    match found {
        Ok(Some((at, what))) => {
            *key = at;
            *val = what;
            OK
        }
        Ok(None) => NOT_THERE,
        Err(_) => unreachable!(),
    }
}
