//! The entries of a map, written into arrays.
ghost use Rattle.std.specs.Prelude.{◌≡◌, ◌≤◌, IfOk, Some, length, map};
ghost use Rattle.std.specs.Option.{option_map};
ghost use Rattle.loose.specs.Arrays.{overwritten};
ghost use Rattle.map_model.specs.Parts.{right_of};
ghost use Rattle.text_handle.specs.Keys.{bytes_cmp};
ghost use Rattle.text_handle.specs.Rows.{Fills, bytes_of, ends_from, fitting, lacking, rows};

use crate::handle::{Handle, keep, take};
use crate::inner::Inner;
use aug_monoid::{Bytes, NoMemory, SumMax};
use map_handle::status::{BAD_CALL, NO_MEMORY, NO_ROOM, OK};
use ord_map::OrdMap;
use std::alloc::Global;

/// Writes the first entries with keys at least `from_key`, as many as there are and fit, and how many these are, in O(log n + k) for k
/// of them: the bytes of their keys in a row, where each key ends in that row, and the values.
pub fn fill(
    alloc: Global,
    map: &mut Handle,
    from_key: &[u8],
    keys: &mut [u8],
    ends: &mut [usize],
    vals: &mut [u64],
    count: &mut usize,
) -> u8
    ensures fit { length ends.old ≡ length vals.old → Fills (option_map (λ m. right_of bytes_cmp m from_key.now) map.old.entries) result (rows keys.old ends.old vals.old count.old) (rows keys.new ends.new vals.new count.new) }
    ensures unfit { ¬ (length ends.old ≡ length vals.old) → (result ≡ 4) × (rows keys.new ends.new vals.new count.new ≡ rows keys.old ends.old vals.old count.old) }
    ensures same { map.new.entries ≡ map.old.entries }
{
    if ends.len() != vals.len() {
        return BAD_CALL;
    }
    let Some(kept) = take(alloc, map) else {
        return BAD_CALL;
    };
    let rest = entries_from(alloc, &kept, from_key);
    keep(map, kept);
    match rest {
        Ok(rest) => write_first(alloc, &rest, keys, ends, vals, count),
        Err(_) => NO_MEMORY,
    }
}

/// The entries with keys at least `from_key`, as a map in the memory of this one.
fn entries_from(
    alloc: Global,
    kept: &Inner,
    from_key: &[u8],
) -> Result<OrdMap<SumMax<Bytes>>, NoMemory>
    ensures { IfOk result (λ rest. rest ≡ right_of bytes_cmp kept.now from_key.now) }
{
    let from_key = Bytes::from_slice(alloc, from_key)?;
    kept.map.at_least(alloc, &from_key)
}

/// Writes the first entries of a map into arrays, of which two have one length.
fn write_first(
    alloc: Global,
    rest: &OrdMap<SumMax<Bytes>>,
    keys: &mut [u8],
    ends: &mut [usize],
    vals: &mut [u64],
    count: &mut usize,
) -> u8
    requires { length ends.old ≡ length vals.old }
    ensures { Fills (Some rest.now) result (rows keys.old ends.old vals.old count.old) (rows keys.new ends.new vals.new count.new) }
{
    let Ok(lacking) = lacking_room(alloc, rest, keys.len(), vals.len()) else {
        return NO_MEMORY;
    };
    if let Some(needed) = lacking {
        *count = needed;
        return NO_ROOM;
    }
    let Ok(found) = first_fitting(alloc, rest, keys.len(), vals.len()) else {
        return NO_MEMORY;
    };
    write_entries(&found, keys, ends, vals);
    *count = found.len();
    OK
}

/// The room that the first entry's key needs, where there is a place for that entry and not the room.
fn lacking_room(
    alloc: Global,
    rest: &OrdMap<SumMax<Bytes>>,
    room: usize,
    places: usize,
) -> Result<Option<usize>, NoMemory>
    ensures { IfOk result (λ needed. needed ≡ lacking room places rest.now) }
{
    if places == 0 {
        return Ok(None);
    }
    let Some((key, _)) = rest.first(alloc)? else {
        return Ok(None);
    };
    let len = key.as_slice().len();
    if len <= room {
        return Ok(None);
    }
    Ok(Some(len))
}

/// The first entries, as many as there are places for, and as there is room for their keys.
fn first_fitting(
    alloc: Global,
    rest: &OrdMap<SumMax<Bytes>>,
    room: usize,
    places: usize,
) -> Result<Vec<(Bytes, u64)>, NoMemory>
    ensures { IfOk result (λ found. found.items ≡ fitting room places rest.now) }
{
    let mut found = Vec::new(alloc);
    let mut left = room;
    for entry in rest.iter(alloc) {
        let (key, val) = entry?;
        let len = key.as_slice().len();
        if found.len() == places || len > left {
            return Ok(found);
        }
        left -= len;
        found.push((key, val))?;
    }
    Ok(found)
}

/// Writes entries to the front of arrays that have room for them.
fn write_entries(found: &[(Bytes, u64)], keys: &mut [u8], ends: &mut [usize], vals: &mut [u64])
    requires key_room { length (bytes_of found.now) ≤ length keys.old }
    requires end_room { length found.now ≤ length ends.old }
    requires val_room { length found.now ≤ length vals.old }
    ensures keys { keys.new ≡ overwritten keys.old (bytes_of found.now) }
    ensures ends { ends.new ≡ overwritten ends.old (ends_from 0 found.now) }
    ensures vals { vals.new ≡ overwritten vals.old (map (λ e. e.1) found.now) }
{
    let mut start = 0;
    for (at, (key, val)) in found.iter().enumerate() {
        let end = start + key.as_slice().len();
        keys[start..end].copy_from_slice(key.as_slice());
        ends[at] = end;
        vals[at] = *val;
        start = end;
    }
}
