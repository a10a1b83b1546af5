//! Changes of one key made one.
ghost use Rattle.std.specs.Prelude.{◌≡◌, IfOk};
ghost use Rattle.std.specs.List.Sorted.{IsSortedByKey};
ghost use Rattle.std.specs.Ordering.{nat_cmp};
ghost use Rattle.op_runs.specs.Runs.{IsComposed};

use crate::outcome::Outcome;
use aug_monoid::NoMemory;
use std::alloc::Global;

/// For each key what its changes come to, by rising keys. Linear in the number of changes.
pub(crate) fn composed(
    alloc: Global,
    changes: &[(u64, Outcome)],
) -> Result<Vec<(u64, Outcome)>, NoMemory>
    requires sorted { IsSortedByKey (λ e. e.0) nat_cmp changes.now }
    ensures { IfOk result (λ v. IsComposed changes.now v.items) }
{
    let mut out = Vec::new(alloc);
    let Some((first, rest)) = changes.split_first() else {
        return Ok(out);
    };
    let (mut key, mut outcome) = *first;
    for (next, later) in rest {
        if *next == key {
            outcome = outcome.followed_by(*later);
        } else {
            out.push((key, outcome))?;
            key = *next;
            outcome = *later;
        }
    }
    out.push((key, outcome))?;
    Ok(out)
}
