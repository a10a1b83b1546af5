//! Documents sorted by falling weight.
ghost use Rattle.std.specs.Prelude.{◌≡◌, IfOk, OnOk, length, take};
ghost use Rattle.std.specs.List.Sorted.{IsSortedBy, IsStableBy};
ghost use Rattle.std.specs.Ordering.{nat_cmp};
ghost use Rattle.inverted_index.specs.Queries.{hits_of};
ghost use Rattle.inverted_index.specs.Ranks.{heavier};

use crate::finding::as_hits;
use crate::hit::Hit;
use aug_monoid::NoMemory;
use std::alloc::Global;
use std::cmp::Ordering;

/// Sorts documents stably by falling weight.
pub(crate) fn sort_by_weight(alloc: Global, entries: &mut [(u64, u64)]) -> Result<(), NoMemory>
    ensures len { length entries.new ≡ length entries.old }
    ensures sorted { OnOk result (IsSortedBy heavier entries.new) }
    ensures stable { OnOk result (IsStableBy heavier entries.old entries.new) }
{
    entries.sort_by(
        alloc,
        |x: &(u64, u64), y: &(u64, u64)| -> Ordering
            ensures { result ≡ nat_cmp y.now.1 x.now.1 }
        { y.1.cmp(&x.1) },
    )?;
    Ok(())
}

/// The first `k` of some documents, or all where there are fewer.
pub(crate) fn first_hits(
    alloc: Global,
    entries: &[(u64, u64)],
    k: u64,
) -> Result<Vec<Hit>, NoMemory>
    ensures { IfOk result (λ hits. hits.items ≡ hits_of (take k entries.now)) }
{
    let number = entries.len().min(k as usize);
    as_hits(alloc, &entries[..number])
}
