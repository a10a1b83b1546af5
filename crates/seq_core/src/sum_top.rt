//! The sum and the greatest of numbers.
ghost use Rattle.std.specs.Prelude.{◌≡◌, ◌+◌};
ghost use Rattle.aug_monoid.specs.Totals.{TotalsFit, totals_base, totals_unit, totals_combine, totals_monoid, totals_base_fits};

use crate::fold::{Fold, SureFold};
use aug_monoid::{Steps, Totals};
use std::sync::ledger::Ledger;

/// The saturating sum and the greatest of numbers.
#[derive(Clone, Copy, Debug)]
pub struct SumTop;

impl Fold for SumTop {
    type Item = u64;

    type Sum = Totals;

    ghost Fits = { TotalsFit };

    ghost image_of = { totals_base };

    ghost unit_of = { totals_unit };

    ghost combined = { totals_combine };

    ghost image_fits = { totals_base_fits };

    ghost monoid = { totals_monoid };

    ghost sums_never_refuse = { tt };

    fn of(item: &u64) -> Totals {
        Totals {
            sum: *item,
            greatest: *item,
        }
    }

    fn unit() -> Totals {
        Totals {
            sum: 0,
            greatest: 0,
        }
    }

    fn combine<C: Ledger>(a: &Totals, b: &Totals, steps: &mut Steps<C>) -> Totals {
        steps.tick();
        Totals {
            sum: a.sum.saturating_add(b.sum),
            greatest: a.greatest.max(b.greatest),
        }
    }
}

impl SureFold for SumTop {
    ghost items_never_refuse = { tt };
}
