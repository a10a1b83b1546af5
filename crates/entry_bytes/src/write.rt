//! Entries as bytes, one after another.
ghost use Rattle.std.specs.Prelude.{◌≡◌, ◌-◌, ◌≤◌, ◌++◌, IfOk, OnOk};
ghost use Rattle.gap_code.specs.Leb.{leb};
ghost use Rattle.entry_bytes.specs.Format.{header, checksum};

use crate::adler::checksum_of;
use crate::header::HEADER;
use aug_monoid::NoMemory;
use gap_code::push_number;
use std::alloc::Global;

/// Begins the bytes of a map of so many entries, with room for numbers that take four bytes an entry.
#[tactic(auto, unfolding(crate::specs::Format::header))]
pub fn begin(alloc: Global, count: u64) -> Result<Vec<u8>, NoMemory>
    ensures { IfOk result (λ bytes. bytes.items ≡ header ++ leb count) }
{
    let room = (count as usize).saturating_mul(4).saturating_add(20);
    let mut bytes = Vec::with_capacity(alloc, room)?;
    bytes.extend_from_slice(&HEADER)?;
    push_number(&mut bytes, count)?;
    Ok(bytes)
}

/// Appends an entry that comes after a key, or after 0 where it is the first.
#[inline]
pub fn push_entry(bytes: &mut Vec<u8>, last: u64, key: u64, val: u64) -> Result<(), NoMemory>
    requires { last ≤ key }
    ensures { OnOk result (bytes.new.items ≡ bytes.old.items ++ (leb (key - last) ++ leb val)) }
{
    push_number(bytes, key - last)?;
    push_number(bytes, val)
}

/// Appends the checksum of the bytes that are there, which ends them.
#[tactic(auto, unfolding(crate::specs::Format::checksum))]
pub fn push_checksum(bytes: &mut Vec<u8>) -> Result<(), NoMemory>
    ensures { OnOk result (bytes.new.items ≡ bytes.old.items ++ checksum bytes.old.items) }
{
    let sum = checksum_of(bytes).to_be_bytes();
    bytes.extend_from_slice(&sum)?;
    Ok(())
}
