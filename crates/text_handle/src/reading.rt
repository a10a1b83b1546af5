//! What a map tells: its size, its folds, and its entries by place and by key.
ghost use Rattle.std.specs.Prelude.{◌≡◌, IfOk, Some, length};
ghost use Rattle.std.specs.Option.{option_map};
ghost use Rattle.aug_monoid.specs.Totals.{totals};
ghost use Rattle.loose.specs.Statuses.{Answers};
ghost use Rattle.map_model.specs.Parts.{next, prev, rank, select};
ghost use Rattle.ord_map.specs.Ends.{last};
ghost use Rattle.text_handle.specs.Folds.{range_totals, totals_of};
ghost use Rattle.text_handle.specs.Keys.{bytes_cmp};
ghost use Rattle.text_handle.specs.Places.{Finds, place};
ghost use Rattle.text_handle.specs.Statuses.{Tells};

use crate::handle::{Handle, keep, take};
use crate::inner::Inner;
use crate::writing::write_found;
use aug_monoid::{Bytes, NoMemory, Totals};
use map_handle::status::{BAD_CALL, NO_MEMORY, OK};
use std::alloc::Global;

/// How many entries there are, in O(1).
pub fn len(alloc: Global, map: &mut Handle, count: &mut u64) -> u8
    ensures answer { Answers (option_map (λ m. Some (length m)) map.old.entries) result count.old count.new }
    ensures same { map.new.entries ≡ map.old.entries }
{
    let Some(kept) = take(alloc, map) else {
        return BAD_CALL;
    };
    *count = kept.map.len();
    keep(map, kept);
    OK
}

/// The saturating sum and the greatest of the values, both 0 where there are none, in O(1).
pub fn fold(alloc: Global, map: &mut Handle, sum: &mut u64, greatest: &mut u64) -> u8
    ensures answer { Answers (option_map (λ m. Some (totals_of m)) map.old.entries) result (totals sum.old greatest.old) (totals sum.new greatest.new) }
    ensures same { map.new.entries ≡ map.old.entries }
{
    let Some(kept) = take(alloc, map) else {
        return BAD_CALL;
    };
    let all = all_totals(&kept);
    keep(map, kept);
    write_totals(all, sum, greatest);
    OK
}

fn all_totals(kept: &Inner) -> Totals
    ensures { result ≡ totals_of kept.now }
{
    match kept.map.fold() {
        Some(all) => *all,
        None => Totals {
            sum: 0,
            greatest: 0,
        },
    }
}

fn write_totals(all: Totals, sum: &mut u64, greatest: &mut u64)
    ensures { totals sum.new greatest.new ≡ all }
{
    *sum = all.sum;
    *greatest = all.greatest;
}

/// The saturating sum and the greatest of the values at keys from `lo` to `hi`, both included, in O(log n); both 0 where there
/// are none.
pub fn fold_range(
    alloc: Global,
    map: &mut Handle,
    lo: &[u8],
    hi: &[u8],
    sum: &mut u64,
    greatest: &mut u64,
) -> u8
    ensures answer { Tells (option_map (λ m. Some (range_totals m lo.now hi.now)) map.old.entries) result (totals sum.old greatest.old) (totals sum.new greatest.new) }
    ensures same { map.new.entries ≡ map.old.entries }
{
    let Some(kept) = take(alloc, map) else {
        return BAD_CALL;
    };
    let part = totals_between(alloc, &kept, lo, hi);
    keep(map, kept);
    match part {
        Ok(all) => {
            write_totals(all, sum, greatest);
            OK
        }
        Err(_) => NO_MEMORY,
    }
}

fn totals_between(alloc: Global, kept: &Inner, lo: &[u8], hi: &[u8]) -> Result<Totals, NoMemory>
    ensures { IfOk result (λ all. all ≡ range_totals kept.now lo.now hi.now) }
{
    let lo = Bytes::from_slice(alloc, lo)?;
    let hi = Bytes::from_slice(alloc, hi)?;
    kept.map.fold_range(alloc, &lo, &hi)
}

/// How many keys are less than `key`, in O(log n).
pub fn rank(alloc: Global, map: &mut Handle, key: &[u8], count: &mut u64) -> u8
    ensures answer { Tells (option_map (λ m. Some (rank bytes_cmp m key.now)) map.old.entries) result count.old count.new }
    ensures same { map.new.entries ≡ map.old.entries }
{
    let Some(kept) = take(alloc, map) else {
        return BAD_CALL;
    };
    let less = rank_of(alloc, &kept, key);
    keep(map, kept);
    match less {
        Ok(less) => {
            *count = less;
            OK
        }
        Err(_) => NO_MEMORY,
    }
}

fn rank_of(alloc: Global, kept: &Inner, key: &[u8]) -> Result<u64, NoMemory>
    ensures { IfOk result (λ less. less ≡ rank bytes_cmp kept.now key.now) }
{
    let key = Bytes::from_slice(alloc, key)?;
    Ok(kept.map.rank(&key))
}

/// The entry at a place, counted from 0, in O(log n).
pub fn select(
    alloc: Global,
    map: &mut Handle,
    at: u64,
    key: &mut [u8],
    key_len: &mut usize,
    val: &mut u64,
) -> u8
    ensures answer { Finds (option_map (λ m. select m at) map.old.entries) result (place key.old key_len.old val.old) (place key.new key_len.new val.new) }
    ensures same { map.new.entries ≡ map.old.entries }
{
    let Some(kept) = take(alloc, map) else {
        return BAD_CALL;
    };
    let found = kept.map.select(alloc, at);
    keep(map, kept);
    write_found(found, key, key_len, val)
}

/// The entry with the least key greater than `than`, in O(log n).
pub fn next(
    alloc: Global,
    map: &mut Handle,
    than: &[u8],
    key: &mut [u8],
    key_len: &mut usize,
    val: &mut u64,
) -> u8
    ensures answer { Finds (option_map (λ m. next bytes_cmp m than.now) map.old.entries) result (place key.old key_len.old val.old) (place key.new key_len.new val.new) }
    ensures same { map.new.entries ≡ map.old.entries }
{
    let Some(kept) = take(alloc, map) else {
        return BAD_CALL;
    };
    let found = next_of(alloc, &kept, than);
    keep(map, kept);
    write_found(found, key, key_len, val)
}

fn next_of(alloc: Global, kept: &Inner, than: &[u8]) -> Result<Option<(Bytes, u64)>, NoMemory>
    ensures { IfOk result (λ entry. entry ≡ next bytes_cmp kept.now than.now) }
{
    let than = Bytes::from_slice(alloc, than)?;
    kept.map.next(alloc, &than)
}

/// The entry with the greatest key less than `than`, in O(log n).
pub fn prev(
    alloc: Global,
    map: &mut Handle,
    than: &[u8],
    key: &mut [u8],
    key_len: &mut usize,
    val: &mut u64,
) -> u8
    ensures answer { Finds (option_map (λ m. prev bytes_cmp m than.now) map.old.entries) result (place key.old key_len.old val.old) (place key.new key_len.new val.new) }
    ensures same { map.new.entries ≡ map.old.entries }
{
    let Some(kept) = take(alloc, map) else {
        return BAD_CALL;
    };
    let found = prev_of(alloc, &kept, than);
    keep(map, kept);
    write_found(found, key, key_len, val)
}

fn prev_of(alloc: Global, kept: &Inner, than: &[u8]) -> Result<Option<(Bytes, u64)>, NoMemory>
    ensures { IfOk result (λ entry. entry ≡ prev bytes_cmp kept.now than.now) }
{
    let than = Bytes::from_slice(alloc, than)?;
    kept.map.prev(alloc, &than)
}

/// The entry with the least key, in O(log n).
pub fn first(
    alloc: Global,
    map: &mut Handle,
    key: &mut [u8],
    key_len: &mut usize,
    val: &mut u64,
) -> u8
    ensures answer { Finds (option_map (λ m. select m 0) map.old.entries) result (place key.old key_len.old val.old) (place key.new key_len.new val.new) }
    ensures same { map.new.entries ≡ map.old.entries }
{
    let Some(kept) = take(alloc, map) else {
        return BAD_CALL;
    };
    let found = kept.map.first(alloc);
    keep(map, kept);
    write_found(found, key, key_len, val)
}

/// The entry with the greatest key, in O(log n).
pub fn last(
    alloc: Global,
    map: &mut Handle,
    key: &mut [u8],
    key_len: &mut usize,
    val: &mut u64,
) -> u8
    ensures answer { Finds (option_map (λ m. last m) map.old.entries) result (place key.old key_len.old val.old) (place key.new key_len.new val.new) }
    ensures same { map.new.entries ≡ map.old.entries }
{
    let Some(kept) = take(alloc, map) else {
        return BAD_CALL;
    };
    let found = kept.map.last(alloc);
    keep(map, kept);
    write_found(found, key, key_len, val)
}
