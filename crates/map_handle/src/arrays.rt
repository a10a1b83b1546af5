//! Many entries at once, as arrays of keys and of values.
ghost use Rattle.std.specs.Prelude.{◌≡◌, IfOk, None, Some, length, map};
ghost use Rattle.std.specs.List.{zip};
ghost use Rattle.std.specs.Option.{option_map};
ghost use Rattle.std.specs.Ordering.{nat_cmp};
ghost use Rattle.loose.specs.Statuses.{Answers, Becomes, into};
ghost use Rattle.map_handle.specs.Arrays.{found_at, one_if_some, presence_at, value_at, value_or_zero, without};
ghost use Rattle.map_model.specs.Operations.{after, build, puts};

use crate::handle::{Handle, is_open, keep, take};
use crate::inner::Inner;
use crate::making::open;
use crate::status::{BAD_CALL, NO_MEMORY, OK};
use aug_monoid::NoMemory;
use map_folds::SumMaxMin;
use ord_map::OrdMap;
use std::alloc::{AllocError, Global};

fn pairs_of(alloc: Global, keys: &[u64], vals: &[u64]) -> Result<Vec<(u64, u64)>, AllocError>
    ensures { IfOk result (λ pairs. pairs.items ≡ zip keys.now vals.now) }
{
    keys.iter()
        .copied()
        .zip(vals.iter().copied())
        .collect(alloc)
}

/// The keys, each with the value 0.
fn keyed(alloc: Global, keys: &[u64]) -> Result<Vec<(u64, u64)>, AllocError>
    ensures { IfOk result (λ pairs. pairs.items ≡ map (λ key. (key, 0)) keys.now) }
{
    keys.iter().map(|key| (*key, 0)).collect(alloc)
}

/// Opens a closed handle with the map of the pairs, in O(n log n); a later pair of a key wins.
pub fn build(alloc: Global, map: &mut Handle, keys: &[u64], vals: &[u64]) -> u8
    ensures fit { length keys.now ≡ length vals.now → Becomes (into map.old.entries (Some (build nat_cmp (zip keys.now vals.now)))) result map.old.entries map.new.entries }
    ensures unfit { (length keys.now ≡ length vals.now → ⊥) → Becomes None result map.old.entries map.new.entries }
{
    if keys.len() != vals.len() || is_open(map) {
        return BAD_CALL;
    }
    match built(alloc, keys, vals) {
        Ok(made) => open(alloc, map, made),
        Err(_) => NO_MEMORY,
    }
}

fn built(alloc: Global, keys: &[u64], vals: &[u64]) -> Result<OrdMap<SumMaxMin<u64>>, NoMemory>
    ensures { IfOk result (λ made. made ≡ build nat_cmp (zip keys.now vals.now)) }
{
    match pairs_of(alloc, keys, vals) {
        Ok(pairs) => OrdMap::from_pairs(alloc, &pairs),
        Err(_) => Err(NoMemory),
    }
}

/// Puts pairs in order, in O(m log(m + n)); a later pair of a key wins.
pub fn put_many(alloc: Global, map: &mut Handle, keys: &[u64], vals: &[u64]) -> u8
    ensures fit { length keys.now ≡ length vals.now → Becomes (option_map (λ m. after nat_cmp m (puts (zip keys.now vals.now))) map.old.entries) result map.old.entries map.new.entries }
    ensures unfit { (length keys.now ≡ length vals.now → ⊥) → Becomes None result map.old.entries map.new.entries }
{
    if keys.len() != vals.len() {
        return BAD_CALL;
    }
    let Some(mut kept) = take(alloc, map) else {
        return BAD_CALL;
    };
    let status = put_pairs(alloc, &mut kept, keys, vals);
    keep(map, kept);
    status
}

fn put_pairs(alloc: Global, kept: &mut Inner, keys: &[u64], vals: &[u64]) -> u8
    ensures { Becomes (Some (after nat_cmp kept.old (puts (zip keys.now vals.now)))) result (Some kept.old) (Some kept.new) }
{
    let Ok(pairs) = pairs_of(alloc, keys, vals) else {
        return NO_MEMORY;
    };
    match kept.map.extend(alloc, &pairs) {
        Ok(()) => OK,
        Err(_) => NO_MEMORY,
    }
}

/// Removes keys, which the map need not have, in O(m log(m + n)).
pub fn del_many(alloc: Global, map: &mut Handle, keys: &[u64]) -> u8
    ensures { Becomes (option_map (λ m. without m keys.now) map.old.entries) result map.old.entries map.new.entries }
{
    let Some(mut kept) = take(alloc, map) else {
        return BAD_CALL;
    };
    let status = del_keys(alloc, &mut kept, keys);
    keep(map, kept);
    status
}

fn del_keys(alloc: Global, kept: &mut Inner, keys: &[u64]) -> u8
    ensures { Becomes (Some (without kept.old keys.now)) result (Some kept.old) (Some kept.new) }
{
    match rest_of(alloc, kept, keys) {
        Ok(rest) => {
            kept.map = rest;
            OK
        }
        Err(_) => NO_MEMORY,
    }
}

fn rest_of(alloc: Global, kept: &Inner, keys: &[u64]) -> Result<OrdMap<SumMaxMin<u64>>, NoMemory>
    ensures { IfOk result (λ rest. rest ≡ without kept.now keys.now) }
{
    let Ok(pairs) = keyed(alloc, keys) else {
        return Err(NoMemory);
    };
    let gone = OrdMap::from_pairs(alloc, &pairs)?;
    kept.map.difference(alloc, &gone)
}

/// For each key its value and 1, or 0 and 0 where the map lacks it, in O(m log n), and for many keys in a fraction of the time of as many
/// calls of `get`.
pub fn get_many(
    alloc: Global,
    map: &mut Handle,
    keys: &[u64],
    vals: &mut [u64],
    present: &mut [u8],
) -> u8
    ensures fit { length keys.now ≡ length vals.old → length keys.now ≡ length present.old → Answers (option_map (λ m. Some (found_at m keys.now)) map.old.entries) result (vals.old, present.old) (vals.new, present.new) }
    ensures unfit_vals { (length keys.now ≡ length vals.old → ⊥) → (result ≡ 4) × (vals.new ≡ vals.old) × (present.new ≡ present.old) }
    ensures unfit_present { (length keys.now ≡ length present.old → ⊥) → (result ≡ 4) × (vals.new ≡ vals.old) × (present.new ≡ present.old) }
    ensures same { map.new.entries ≡ map.old.entries }
{
    if keys.len() != vals.len() || keys.len() != present.len() {
        return BAD_CALL;
    }
    let Some(kept) = take(alloc, map) else {
        return BAD_CALL;
    };
    write_found(alloc, &kept, keys, vals, present);
    keep(map, kept);
    OK
}

// Writes what stands at keys, which go down the map together, or one after another where memory is short.
fn write_found(alloc: Global, kept: &Inner, keys: &[u64], vals: &mut [u64], present: &mut [u8])
    requires vals { length vals.old ≡ length keys.now }
    requires present { length present.old ≡ length keys.now }
    ensures vals { vals.new ≡ map (value_at kept.now) keys.now }
    ensures present { present.new ≡ map (presence_at kept.now) keys.now }
{
    match kept.map.get_many(alloc, keys) {
        Ok(found) => write_all_found(&found, vals, present),
        Err(_) => write_each(alloc, kept, keys, vals, present),
    }
}

fn write_all_found(found: &[Option<u64>], vals: &mut [u64], present: &mut [u8])
    requires vals { length vals.old ≡ length found.now }
    requires present { length present.old ≡ length found.now }
    ensures vals { vals.new ≡ map value_or_zero found.now }
    ensures present { present.new ≡ map one_if_some found.now }
{
    for (i, val) in found.iter().enumerate() {
        vals[i] = val.unwrap_or(0);
        present[i] = u8::from(val.is_some());
    }
}

fn write_each(alloc: Global, kept: &Inner, keys: &[u64], vals: &mut [u64], present: &mut [u8])
    requires vals { length vals.old ≡ length keys.now }
    requires present { length present.old ≡ length keys.now }
    ensures vals { vals.new ≡ map (value_at kept.now) keys.now }
    ensures present { present.new ≡ map (presence_at kept.now) keys.now }
{
    for (i, key) in keys.iter().enumerate() {
        let (val, there) = found(alloc, kept, *key);
        vals[i] = val;
        present[i] = there;
    }
}

fn found(alloc: Global, kept: &Inner, key: u64) -> (u64, u8)
    ensures { result ≡ (value_at kept.now key, presence_at kept.now key) }
{
    match kept.map.get(alloc, &key) {
        Ok(Some(val)) => (val, 1),
        Ok(None) => (0, 0),
        Err(_) => unreachable!(),
    }
}
