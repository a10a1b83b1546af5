//! Entries as the script has them, and as its lines want them.
ghost use Rattle.std.specs.Prelude.{◌≡◌, IfOk};
ghost use Rattle.map_tool.specs.Values.{entries_of, entry_numbers};

use aug_monoid::{NoMemory, Pair64};
use script::Numbers;
use std::alloc::Global;

/// Pairs as entries.
pub(crate) fn entries_of(alloc: Global, pairs: &[Pair64]) -> Result<Vec<(u64, u64)>, NoMemory>
    ensures { IfOk result (λ entries. entries.items ≡ entries_of pairs.now) }
{
    let entries = pairs
        .iter()
        .map(|pair| (pair.first, pair.second))
        .collect(alloc)?;
    Ok(entries)
}

/// The key and the value of an entry.
pub(crate) struct EntryNumbers;

impl Numbers<(u64, u64), 2> for EntryNumbers {
    ghost numbers_of = { entry_numbers };

    fn numbers(entry: &(u64, u64)) -> [u64; 2] {
        [entry.0, entry.1]
    }
}
