//! A map as bytes, in an array of the caller, and a map of bytes.
ghost use Rattle.std.specs.Prelude.{◌≡◌, IsTrue, Some};
ghost use Rattle.std.specs.Option.{option_map};
ghost use Rattle.entry_bytes.specs.Format.{encoding};
ghost use Rattle.map_handle.specs.Bytes.{Fills, Opens, room};

use crate::handle::{Handle, is_open, keep, take};
use crate::making::open;
use crate::status::{BAD_CALL, NO_MEMORY, NO_ROOM, NOT_A_MAP, OK};
use entry_bytes::DecodeFault;
use map_bytes::{decode, encode};
use map_folds::SumMaxMin;
use ord_map::OrdMap;
use std::alloc::Global;

/// Writes bytes to the front of an array that has room for them, and how many they are.
fn laid(bytes: &[u8], out: &mut [u8], needed: &mut usize) -> u8
    ensures { Fills (Some bytes.now) result (room out.old needed.old) (room out.new needed.new) }
{
    *needed = bytes.len();
    if bytes.len() > out.len() {
        return NO_ROOM;
    }
    let (front, _behind) = out.split_at_mut(bytes.len());
    front.copy_from_slice(bytes);
    OK
}

fn write_encoding(
    alloc: Global,
    map: &OrdMap<SumMaxMin<u64>>,
    out: &mut [u8],
    needed: &mut usize,
) -> u8
    ensures { Fills (Some (encoding map.now)) result (room out.old needed.old) (room out.new needed.new) }
{
    match encode(alloc, map) {
        Ok(bytes) => laid(&bytes, out, needed),
        Err(_) => NO_MEMORY,
    }
}

/// Writes the map as bytes, and how many they are, in O(n).
pub fn bytes(alloc: Global, map: &mut Handle, out: &mut [u8], needed: &mut usize) -> u8
    ensures answer { Fills (option_map encoding map.old.entries) result (room out.old needed.old) (room out.new needed.new) }
    ensures same { map.new.entries ≡ map.old.entries }
{
    let Some(kept) = take(alloc, map) else {
        return BAD_CALL;
    };
    let status = write_encoding(alloc, &kept.map, out, needed);
    keep(map, kept);
    status
}

/// Whether memory was refused, which says nothing of the bytes.
fn is_memory(fault: DecodeFault) -> bool
    ensures memory { IsTrue result → fault ≡ DecodeFault.NoMemory }
    ensures others { fault ≡ DecodeFault.NoMemory → IsTrue result }
{
    matches!(fault, DecodeFault::NoMemory)
}

/// Opens a closed handle with the map that bytes are, in O(n log n) for n entries.
pub fn from_bytes(alloc: Global, map: &mut Handle, bytes: &[u8]) -> u8
    ensures { Opens bytes.now result map.old.entries map.new.entries }
{
    if is_open(map) {
        return BAD_CALL;
    }
    match decode(alloc, bytes) {
        Ok(made) => open(alloc, map, made),
        Err(fault) if is_memory(fault) => NO_MEMORY,
        Err(_) => NOT_A_MAP,
    }
}
