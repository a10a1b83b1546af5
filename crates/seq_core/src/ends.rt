//! The first and the last of numbers.
ghost use Rattle.std.specs.Prelude.{◌≡◌, ◌+◌, Some, None};
ghost use Rattle.seq_core.specs.Ends.{ends_of, ends_combined, ends_monoid};

use crate::fold::{Fold, SureFold};
use aug_monoid::{Pair64, Steps};
use std::sync::ledger::Ledger;

/// The first and the last of numbers, and `None` where there are none.
#[derive(Clone, Copy, Debug)]
pub struct Ends;

impl Fold for Ends {
    type Item = u64;

    type Sum = Option<Pair64>;

    ghost Fits = { λ _. Unit {0} };

    ghost image_of = { ends_of };

    ghost unit_of = { None };

    ghost combined = { ends_combined };

    ghost image_fits = { λ _. tt };

    ghost monoid = { ends_monoid };

    ghost sums_never_refuse = { tt };

    fn of(item: &u64) -> Option<Pair64> {
        Some(Pair64 {
            first: *item,
            second: *item,
        })
    }

    fn unit() -> Option<Pair64> {
        None
    }

    fn combine<C: Ledger>(
        a: &Option<Pair64>,
        b: &Option<Pair64>,
        steps: &mut Steps<C>,
    ) -> Option<Pair64> {
        steps.tick();
        match (a, b) {
            (None, _) => *b,
            (_, None) => *a,
            (Some(front), Some(back)) => Some(Pair64 {
                first: front.first,
                second: back.second,
            }),
        }
    }
}

impl SureFold for Ends {
    ghost items_never_refuse = { tt };
}
