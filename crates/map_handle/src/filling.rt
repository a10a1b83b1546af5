//! The entries of a map, written into arrays.
ghost use Rattle.std.specs.Prelude.{◌≡◌, IfOk, Some, drop, length, slice_get};
ghost use Rattle.std.specs.Option.{option_map};
ghost use Rattle.std.specs.Ordering.{nat_cmp};
ghost use Rattle.loose.specs.Statuses.{Answers};
ghost use Rattle.map_handle.specs.Arrays.{filled};
ghost use Rattle.map_model.specs.Parts.{rank, right_of};

use crate::handle::{Handle, keep, take};
use crate::inner::Inner;
use crate::status::{BAD_CALL, OK};
use aug_monoid::{NoMemory, Share};
use map_folds::SumMaxMin;
use ord_map::OrdMap;
use std::alloc::Global;

/// Writes the first entries with keys at least `from_key`, as many as there are and fit, and how many these are, in O(log n + k)
/// for k of them; where memory is refused in O(log n) for each.
pub fn fill(
    alloc: Global,
    map: &mut Handle,
    from_key: u64,
    keys: &mut [u64],
    vals: &mut [u64],
    count: &mut usize,
) -> u8
    ensures fit { length keys.old ≡ length vals.old → Answers (option_map (λ m. Some (filled (drop (rank nat_cmp m from_key) m) keys.old vals.old)) map.old.entries) result (count.old, keys.old, vals.old) (count.new, keys.new, vals.new) }
    ensures unfit { (length keys.old ≡ length vals.old → ⊥) → (result ≡ 4) × (count.new ≡ count.old) × (keys.new ≡ keys.old) × (vals.new ≡ vals.old) }
    ensures same { map.new.entries ≡ map.old.entries }
{
    if keys.len() != vals.len() {
        return BAD_CALL;
    }
    let Some(kept) = take(alloc, map) else {
        return BAD_CALL;
    };
    *count = write_from_key(alloc, &kept, from_key, keys, vals);
    keep(map, kept);
    OK
}

/// Fewer entries than these are looked up one by one, which takes no map of its own.
const FEW_ENTRIES: usize = 64;

/// Writes the entries with keys at least `from_key`.
fn write_from_key(
    alloc: Global,
    kept: &Inner,
    from_key: u64,
    keys: &mut [u64],
    vals: &mut [u64],
) -> usize
    requires { length keys.old ≡ length vals.old }
    ensures { (result, keys.new, vals.new) ≡ filled (drop (rank nat_cmp kept.now from_key) kept.now) keys.old vals.old }
{
    let _size = kept.map.len(); // for the proof alone: its keys rise
    if keys.len() >= FEW_ENTRIES {
        if let Ok(rest) = entries_from(alloc, kept, from_key) {
            return write_all(alloc, &rest, keys, vals);
        }
    }
    write_from(alloc, kept, kept.map.rank(&from_key), keys, vals)
}

/// The entries with keys at least `from_key`, as a map in the memory of this one.
fn entries_from(
    alloc: Global,
    kept: &Inner,
    from_key: u64,
) -> Result<OrdMap<SumMaxMin<u64>>, NoMemory>
    ensures { IfOk result (λ rest. rest ≡ right_of nat_cmp kept.now from_key) }
{
    let mut below = kept.map.share(alloc)?;
    below.split_off(alloc, &from_key)
}

/// Writes the entries of a map.
fn write_all(
    alloc: Global,
    rest: &OrdMap<SumMaxMin<u64>>,
    keys: &mut [u64],
    vals: &mut [u64],
) -> usize
    requires { length keys.old ≡ length vals.old }
    ensures { (result, keys.new, vals.new) ≡ filled rest.now keys.old vals.old }
{
    let count = keys.len().min(rest.len() as usize);
    let mut entries = rest.iter(alloc);
    for i in 0..count {
        match entries.next() {
            Some(Ok((key, val))) => {
                keys[i] = key;
                vals[i] = val;
            }
            Some(Err(_)) => unreachable!(),
            None => unreachable!(),
        }
    }
    count
}

/// Writes the entries from a place on.
fn write_from(alloc: Global, kept: &Inner, start: u64, keys: &mut [u64], vals: &mut [u64]) -> usize
    requires { length keys.old ≡ length vals.old }
    ensures { (result, keys.new, vals.new) ≡ filled (drop start kept.now) keys.old vals.old }
{
    let rest = kept.map.len().saturating_sub(start) as usize;
    let count = keys.len().min(rest);
    for i in 0..count {
        match entry_at(alloc, kept, start + i as u64) {
            Some((key, val)) => {
                keys[i] = key;
                vals[i] = val;
            }
            None => unreachable!(),
        }
    }
    count
}

/// The entry at a place, counted from 0.
fn entry_at(alloc: Global, kept: &Inner, at: u64) -> Option<(u64, u64)>
    ensures { result ≡ slice_get kept.now at }
{
    match kept.map.select(alloc, at) {
        Ok(entry) => entry,
        Err(_) => unreachable!(),
    }
}
