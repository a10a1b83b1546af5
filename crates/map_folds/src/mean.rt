//! The mean of the values.
ghost use Rattle.std.specs.Prelude.{◌≡◌, ◌+◌, ◌-◌, ◌*◌, ◌/◌, ◌^◌, ◌<◌, MatchOption, IfOk, IsOk};
ghost use Rattle.map_folds.specs.Means.{MeansFit, means, means_base, means_combine, means_monoid, means_base_fits};

use aug_monoid::{Augment, Key, NoMemory, Share, Steps};
use std::alloc::Global;
use std::marker::PhantomData;
use std::sync::ledger::Ledger;

/// The sum of some numbers and how many they are. Each stops at the greatest of its type, which the values of a map don't reach.
#[derive(Clone, Copy, Debug, PartialEq, Eq)]
pub struct SumCount {
    pub sum: u128,
    pub count: u64,
}

impl SumCount {
    /// The mean, rounded down, and none of no numbers. O(1).
    pub fn mean(&self) -> Option<u128>
        ensures { MatchOption result (self.now.count ≡ 0) (λ mean. (0 < self.now.count) × (mean ≡ self.now.sum / self.now.count)) }
    {
        if self.count == 0 {
            None
        } else {
            Some(self.sum / u128::from(self.count))
        }
    }
}

impl Share for SumCount {
    ghost never_refuses = { Unit {0} };

    fn share(&self, _alloc: Global) -> Result<SumCount, NoMemory> {
        Ok(*self)
    }

    fn is_total() -> bool {
        true
    }
}

/// The sum and the number of the values, and so their mean.
#[derive(Drop)]
pub struct Mean<K> {
    keys: PhantomData<K>,
}

impl<K: Key> Augment for Mean<K> {
    type Key = K;

    type Val = u64;

    type Aug = SumCount;

    ghost Fits = { MeansFit };

    ghost base_of = { λ _ val. means_base val };

    ghost unit_of = { means 0 0 };

    ghost combined = { means_combine };

    ghost never_refuses = { Unit {0} };

    ghost base_fits = { λ _ val. means_base_fits val };

    ghost monoid = { means_monoid };

    ghost augs_never_refuse = { λ _. tt };

    fn base(_alloc: Global, _key: &K, val: &u64) -> Result<SumCount, NoMemory> {
        Ok(SumCount {
            sum: u128::from(*val),
            count: 1,
        })
    }

    fn unit() -> SumCount {
        SumCount { sum: 0, count: 0 }
    }

    fn combine<C: Ledger>(
        _alloc: Global,
        a: &SumCount,
        b: &SumCount,
        steps: &mut Steps<C>,
    ) -> Result<SumCount, NoMemory> {
        steps.tick();
        Ok(SumCount {
            sum: a.sum.saturating_add(b.sum),
            count: a.count.saturating_add(b.count),
        })
    }

    fn is_total() -> bool {
        true
    }

    #[tactic(auto, using(crate::proofs::Commutes::means_commute))]
    fn commutes() -> bool {
        true
    }
}
