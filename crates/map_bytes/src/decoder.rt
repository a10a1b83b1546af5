//! A map that is read from its bytes.
ghost use Rattle.std.specs.Prelude.{◌≡◌, ℕ, List, ◌+◌, ◌*◌, ◌≤◌, ◌⊎◌, length, MatchResult, IfOk, IfErr};
ghost use Rattle.entry_bytes.specs.Faults.{IsFirstFault};
ghost use Rattle.entry_bytes.specs.Format.{IsMap, encoding};

use entry_bytes::{DecodeFault, read_entries};
use map_folds::SumMaxMin;
use ord_map::OrdMap;
use std::alloc::Global;

/// The map that some bytes are the encoding of, or their first fault. O(n log n) for n entries.
///
/// The number of entries is compared with the bytes that are left before anything is allocated, so that hostile bytes take no
/// more memory than a map of half as many entries as there are bytes.
pub fn decode(alloc: Global, bytes: &[u8]) -> Result<OrdMap<SumMaxMin<u64>>, DecodeFault>
    ensures encoding { IfOk result (λ map. bytes.now ≡ encoding map) }
    ensures lawful { IfOk result (λ map. IsMap map) }
    ensures small { IfOk result (λ map. 2 * length map + 11 ≤ length bytes.now) }
    ensures fault { IfErr result (λ fault. (fault ≡ DecodeFault.NoMemory) ⊎ IsFirstFault fault bytes.now) }
    ensures accepts { (m : List (ℕ × ℕ)) → IsMap m → bytes.now ≡ encoding m → MatchResult result (λ map. map ≡ m) (λ fault. fault ≡ DecodeFault.NoMemory) }
{
    let entries = read_entries(alloc, bytes)?;
    let map = OrdMap::from_pairs(alloc, &entries)?;
    Ok(map)
}
