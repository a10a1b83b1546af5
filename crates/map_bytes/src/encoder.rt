//! A map as bytes.
ghost use Rattle.std.specs.Prelude.{◌≡◌, ◌++◌, IfOk, OnOk};
ghost use Rattle.std.specs.Ordering.{nat_cmp};
ghost use Rattle.map_model.specs.Entries.{IsIncreasing};
ghost use Rattle.gap_code.specs.Code.{code};
ghost use Rattle.gap_code.specs.Leb.{leb};
ghost use Rattle.entry_bytes.specs.Format.{encoding};

use aug_monoid::NoMemory;
use entry_bytes::{begin, push_checksum, push_entry};
use map_folds::SumMaxMin;
use ord_map::OrdMap;
use std::alloc::Global;

/// Appends the entries of a map.
fn push_entries(
    alloc: Global,
    bytes: &mut Vec<u8>,
    map: &OrdMap<SumMaxMin<u64>>,
) -> Result<(), NoMemory>
    requires { IsIncreasing nat_cmp map.now }
    ensures { OnOk result (bytes.new.items ≡ bytes.old.items ++ code leb map.now) }
{
    let mut last = 0;
    for entry in map.iter(alloc) {
        let (key, val) = entry?;
        push_entry(bytes, last, key, val)?;
        last = key;
    }
    Ok(())
}

/// The bytes of a map, in O(n) for n entries; at most 20 an entry and 20 more. Refuses for want of memory alone.
pub fn encode(alloc: Global, map: &OrdMap<SumMaxMin<u64>>) -> Result<Vec<u8>, NoMemory>
    ensures { IfOk result (λ bytes. bytes.items ≡ encoding map.now) }
{
    let mut bytes = begin(alloc, map.len())?;
    push_entries(alloc, &mut bytes, map)?;
    push_checksum(&mut bytes)?;
    Ok(bytes)
}
