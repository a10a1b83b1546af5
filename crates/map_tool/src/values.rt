//! What the tool asks of values: tests and counts.
ghost use Rattle.std.specs.Prelude.{◌≡◌, ◌+◌, ◌-◌, ◌^◌, ◌&&◌, ℕ, cond, min, max, nat_le};
ghost use Rattle.aug_monoid.specs.declared.totals.Totals.{Totals};
ghost use Rattle.map_tool.specs.Counts.{CountFits, count_fits, count_monoid};
ghost use Rattle.map_tool.specs.Greatest.{GreatestFits, greatest_fits, greatest_monoid, greatest_projection, either_passes};

use aug_monoid::{AugTest, NoMemory, Project, Reduce, Steps, SumMax, Test, Totals};
use std::alloc::Global;
use std::sync::ledger::Ledger;

/// The values from `lo` to `hi`.
#[derive(Drop)]
pub(crate) struct Within {
    pub(crate) lo: u64,
    pub(crate) hi: u64,
}

impl Test<u64, u64> for Within {
    ghost passes = { λ s _ val. nat_le s.lo val && nat_le val s.hi };

    fn holds(&self, _key: &u64, val: &u64) -> bool {
        self.lo <= *val && *val <= self.hi
    }
}

impl Reduce<u64, u64> for Within {
    type Out = u64;

    ghost Fits = { λ _. CountFits };

    ghost image_of = { λ s _ val. cond (nat_le s.lo val && nat_le val s.hi) 1 0 };

    ghost unit_of = { λ _. 0 };

    ghost combined = { λ _ a b. min (a + b) (2 ^ 64 - 1) };

    ghost image_fits = { λ s _ val. count_fits (nat_le s.lo val && nat_le val s.hi) };

    ghost monoid = { λ _. count_monoid };

    fn of(&self, _alloc: Global, key: &u64, val: &u64) -> Result<u64, NoMemory> {
        Ok(u64::from(self.holds(key, val)))
    }

    fn unit(&self) -> u64 {
        0
    }

    fn combine(&self, _alloc: Global, a: u64, b: u64) -> Result<u64, NoMemory> {
        Ok(a.saturating_add(b))
    }
}

/// The values that are at least a number.
#[derive(Drop)]
pub(crate) struct AtLeast {
    pub(crate) least: u64,
}

impl AugTest<SumMax<u64>> for AtLeast {
    ghost admits = { λ s aug. nat_le s.least aug.greatest };

    ghost passes_either = { λ s. either_passes s.least };

    fn passes(&self, aug: &Totals) -> bool {
        self.least <= aug.greatest
    }
}

/// The greatest value.
#[derive(Drop)]
pub(crate) struct Greatest;

impl Project<SumMax<u64>> for Greatest {
    type Out = u64;

    ghost Fits = { λ _. GreatestFits };

    ghost image_of = { λ _ aug. aug.greatest };

    ghost combined = { λ _ a b. max a b };

    ghost IsImageCost = { λ _ _ _. Unit {0} };

    ghost image_fits = { λ _ aug fits. greatest_fits aug fits };

    ghost monoid = { λ _. greatest_monoid };

    ghost projection = { λ _. greatest_projection };

    fn image<C: Ledger>(
        &self,
        _alloc: Global,
        aug: &Totals,
        _steps: &mut Steps<C>,
    ) -> Result<u64, NoMemory> {
        Ok(aug.greatest)
    }

    fn combine(&self, _alloc: Global, a: u64, b: u64) -> Result<u64, NoMemory> {
        Ok(a.max(b))
    }
}
