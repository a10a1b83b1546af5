//! Entries that are read from their bytes.
ghost use Rattle.std.specs.Prelude.{◌≡◌, ℕ, List, ◌+◌, ◌*◌, ◌≤◌, ◌<◌, ◌⊎◌, ◌++◌, [], length, drop, take, MatchResult, IfOk, IfErr};
ghost use Rattle.entry_bytes.specs.Faults.{IsBegun, IsCountFault, IsEntriesFault, IsEntryFault, IsEndFault, IsFirstFault};
ghost use Rattle.entry_bytes.specs.Format.{IsMap, header, checksum, encoding};
ghost use Rattle.entry_bytes.specs.Reads.{IsEntry, AreRead};

use crate::adler::checksum_of;
use crate::fault::DecodeFault;
use crate::header::{HEADER, read_header};
use crate::number::{ReadNumber, read_number};
use std::alloc::Global;

/// An entry, and the place after it.
#[derive(Clone, Copy)]
struct Read {
    key: u64,
    val: u64,
    after: usize,
}

/// Entries, and the place after them.
#[derive(Drop)]
struct Reads {
    entries: Vec<(u64, u64)>,
    after: usize,
}

/// The number of entries, for which there is room.
fn read_count(bytes: &[u8], at: usize) -> Result<ReadNumber, DecodeFault>
    requires header { bytes.now ≡ header ++ drop at bytes.now }
    requires within { at ≤ length bytes.now }
    ensures { MatchResult result (λ read. IsBegun bytes.now read.number [] (drop read.after bytes.now) × (read.after ≤ length bytes.now)) (λ fault. IsCountFault fault bytes.now) }
{
    let count = read_number(bytes, at)?;
    let most = (bytes.len() - count.after) / 2;
    let wanted = count.number.saturating_add(2);
    if wanted > most as u64 {
        return Err(DecodeFault::Short);
    }
    Ok(count)
}

/// The entry at a place, behind a key; its gap is at least `least`.
#[inline(always)]
fn read_entry(bytes: &[u8], at: usize, last: u64, least: u64) -> Result<Read, DecodeFault>
    requires { at ≤ length bytes.now }
    ensures { MatchResult result (λ read. IsEntry bytes.now at last least read.key read.val read.after) (λ fault. IsEntryFault last least fault (drop at bytes.now)) }
{
    let gap = read_number(bytes, at)?;
    let step = gap.number;
    if step < least {
        return Err(DecodeFault::Order);
    }
    let most = u64::MAX - last;
    if step > most {
        return Err(DecodeFault::Order);
    }
    let val = read_number(bytes, gap.after)?;
    Ok(Read {
        key: last + step,
        val: val.number,
        after: val.after,
    })
}

/// So many entries, and the place after them.
fn read_all(alloc: Global, bytes: &[u8], at: usize, count: u64) -> Result<Reads, DecodeFault>
    requires begun { IsBegun bytes.now count [] (drop at bytes.now) }
    requires within { at ≤ length bytes.now }
    ensures { MatchResult result (λ reads. AreRead bytes.now count reads.after reads.entries.items) (λ fault. (fault ≡ DecodeFault.NoMemory) ⊎ IsEntriesFault fault bytes.now) }
{
    let mut entries = Vec::with_capacity(alloc, count as usize)?;
    let mut after = at;
    let mut last = 0;
    let mut least = 0;
    for index in 0..count {
        let _index: u64 = index; // for the proof alone: so many have been read
        let read = read_entry(bytes, after, last, least)?;
        entries.push((read.key, read.val))?;
        after = read.after;
        last = read.key;
        least = 1;
    }
    Ok(Reads { entries, after })
}

/// Reads the checksum of the bytes before a place, and the end.
#[tactic(auto, unfolding(crate::specs::Format::checksum))]
fn read_end(bytes: &[u8], at: usize) -> Result<(), DecodeFault>
    requires { at ≤ length bytes.now }
    ensures { MatchResult result (λ _. drop at bytes.now ≡ checksum (take at bytes.now)) (λ fault. IsEndFault fault (take at bytes.now) (drop at bytes.now)) }
{
    let rest = &bytes[at..];
    if rest.len() < 4 {
        return Err(DecodeFault::Short);
    }
    let sum = checksum_of(&bytes[..at]).to_be_bytes();
    if rest[..4] != sum[..] {
        return Err(DecodeFault::Checksum);
    }
    if rest.len() > 4 {
        return Err(DecodeFault::Trailing);
    }
    Ok(())
}

/// The entries that bytes of the format of `docs/FORMAT.md` stand for, in O(n) for n bytes.
pub fn read_entries(alloc: Global, bytes: &[u8]) -> Result<Vec<(u64, u64)>, DecodeFault>
    ensures lawful { IfOk result (λ entries. IsMap entries.items) }
    ensures encoding { IfOk result (λ entries. bytes.now ≡ encoding entries.items) }
    ensures small { IfOk result (λ entries. 2 * length entries.items + 11 ≤ length bytes.now) }
    ensures fault { IfErr result (λ fault. (fault ≡ DecodeFault.NoMemory) ⊎ IsFirstFault fault bytes.now) }
    ensures accepts { (m : List (ℕ × ℕ)) → IsMap m → bytes.now ≡ encoding m → MatchResult result (λ entries. entries.items ≡ m) (λ fault. fault ≡ DecodeFault.NoMemory) }
{
    read_header(bytes)?;
    let count = read_count(bytes, HEADER.len())?;
    let reads = read_all(alloc, bytes, count.after, count.number)?;
    read_end(bytes, reads.after)?;
    Ok(reads.entries)
}
