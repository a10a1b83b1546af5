//! Sums of runs, each with a counter of its own.
ghost use Rattle.std.specs.Prelude.{◌≡◌, take, drop};
ghost use Rattle.seq_handle.specs.Totals.{totals_of};
ghost use Rattle.aug_monoid.specs.Fresh.{IsFresh};

use crate::inner::Numbers;
use aug_monoid::{Steps, Totals};
use std::alloc::Global;
use std::sync::ledger::{Blank, Ledger};

/// The saturating sum and the greatest of the first `count` items after the first `from`.
pub(crate) fn run_totals<C: Ledger>(
    alloc: Global,
    seq: &Numbers,
    from: u64,
    count: u64,
    blank: Blank,
) -> Totals
    requires { IsFresh C.name C.parts blank }
    ensures { result ≡ totals_of (take count (drop from seq.now.items)) }
{
    let mut steps = Steps::<C>::start(blank);
    seq.reduce(alloc, from, count, &mut steps)
}
