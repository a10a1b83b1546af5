//! What the examples ask of values.
ghost use Rattle.std.specs.Prelude.{max, nat_le};
ghost use Rattle.map_examples.specs.Asked.{largest_monoid, passes_either};

use aug_monoid::{AugTest, NoMemory, Reduce, SumMax, Test, Totals};
use ord_map::MapValue;
use std::alloc::Global;

/// The values that are at least a number.
#[derive(Drop)]
pub struct AtLeast {
    pub least: u64,
}

impl Test<u64, u64> for AtLeast {
    ghost passes = { λ s _ val. nat_le s.least val };

    fn holds(&self, _key: &u64, val: &u64) -> bool {
        self.least <= *val
    }
}

impl AugTest<SumMax<u64>> for AtLeast {
    ghost admits = { λ s aug. nat_le s.least aug.greatest };

    ghost passes_either = { λ s. passes_either s.least };

    fn passes(&self, aug: &Totals) -> bool {
        self.least <= aug.greatest
    }
}

/// Whether a value is at least the number.
impl MapValue<u64, u64> for AtLeast {
    type Out = bool;

    ghost made_of = { λ s _ val. nat_le s.least val };

    fn make(&self, _alloc: Global, _key: &u64, val: &u64) -> Result<bool, NoMemory> {
        Ok(self.least <= *val)
    }
}

/// The largest value.
#[derive(Drop)]
pub struct Largest;

impl Reduce<u64, u64> for Largest {
    type Out = u64;

    ghost Fits = { λ _ _. Unit {0} };

    ghost image_of = { λ _ _ val. val };

    ghost unit_of = { λ _. 0 };

    ghost combined = { λ _ a b. max a b };

    ghost image_fits = { λ _ _ _. tt };

    ghost monoid = { λ _. largest_monoid };

    fn of(&self, _alloc: Global, _key: &u64, val: &u64) -> Result<u64, NoMemory> {
        Ok(*val)
    }

    fn unit(&self) -> u64 {
        0
    }

    fn combine(&self, _alloc: Global, a: u64, b: u64) -> Result<u64, NoMemory> {
        Ok(a.max(b))
    }
}
