//! The sum, the greatest and the least of the values.
ghost use Rattle.std.specs.Prelude.{◌≡◌, ◌+◌, IfOk, IsOk};
ghost use Rattle.map_folds.specs.Summaries.{SummaryFits, summary_base, summary_unit, summary_combine, summary_monoid, summary_base_fits};

use aug_monoid::{Augment, Key, NoMemory, Share, Steps, Totals};
use std::alloc::Global;
use std::marker::PhantomData;
use std::sync::ledger::Ledger;

/// The totals of some numbers, and the least of them.
#[derive(Clone, Copy, Debug, PartialEq, Eq)]
pub struct Summary {
    pub totals: Totals,
    /// It is `u64::MAX` where there are none.
    pub least: u64,
}

impl Share for Summary {
    ghost never_refuses = { Unit {0} };

    fn share(&self, _alloc: Global) -> Result<Summary, NoMemory> {
        Ok(*self)
    }

    fn is_total() -> bool {
        true
    }
}

/// The saturating sum, the greatest and the least of the values.
#[derive(Drop)]
pub struct SumMaxMin<K> {
    keys: PhantomData<K>,
}

impl<K: Key> Augment for SumMaxMin<K> {
    type Key = K;

    type Val = u64;

    type Aug = Summary;

    ghost Fits = { SummaryFits };

    ghost base_of = { λ _ val. summary_base val };

    ghost unit_of = { summary_unit };

    ghost combined = { summary_combine };

    ghost never_refuses = { Unit {0} };

    ghost base_fits = { λ _ val. summary_base_fits val };

    ghost monoid = { summary_monoid };

    ghost augs_never_refuse = { λ _. tt };

    fn base(_alloc: Global, _key: &K, val: &u64) -> Result<Summary, NoMemory> {
        Ok(Summary {
            totals: Totals {
                sum: *val,
                greatest: *val,
            },
            least: *val,
        })
    }

    fn unit() -> Summary {
        Summary {
            totals: Totals {
                sum: 0,
                greatest: 0,
            },
            least: u64::MAX,
        }
    }

    fn combine<C: Ledger>(
        _alloc: Global,
        a: &Summary,
        b: &Summary,
        steps: &mut Steps<C>,
    ) -> Result<Summary, NoMemory> {
        steps.tick();
        Ok(Summary {
            totals: Totals {
                sum: a.totals.sum.saturating_add(b.totals.sum),
                greatest: a.totals.greatest.max(b.totals.greatest),
            },
            least: a.least.min(b.least),
        })
    }

    fn is_total() -> bool {
        true
    }

    #[tactic(auto, using(crate::proofs::Commutes::summaries_commute))]
    fn commutes() -> bool {
        true
    }
}
