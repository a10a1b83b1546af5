//! The augmented values of a map of sets: how many elements the sets have together.
ghost use Rattle.std.specs.Prelude.{◌≡◌, ◌+◌, ◌-◌, ◌^◌, ◌≤◌, length, min};
ghost use Rattle.std.proofs.Common.{arith};

use crate::neighbours::Neighbours;
use aug_monoid::{Augment, NoMemory, Steps};
use std::alloc::Global;
use std::sync::ledger::Ledger;

/// How many elements sets have together; a sum above `u64::MAX` becomes `u64::MAX`.
#[derive(Drop)]
pub struct Degrees;

impl Augment for Degrees {
    type Key = u64;

    type Val = Neighbours;

    type Aug = u64;

    ghost Fits = { λ n. n ≤ 2 ^ 64 - 1 };

    ghost base_of = { λ _ ns. min (length ns) (2 ^ 64 - 1) };

    ghost unit_of = { 0 };

    ghost combined = { λ a b. min (a + b) (2 ^ 64 - 1) };

    ghost never_refuses = { Unit {0} };

    ghost base_fits = { λ _ _. omega arith };

    ghost monoid = { record { unit_fits = omega arith; combine_fits = λ a b f g. omega arith; left_unit = λ a f. omega arith; right_unit = λ a f. omega arith; assoc = λ a b c f g h. omega arith } };

    ghost augs_never_refuse = { λ _. tt };

    fn base(_alloc: Global, _key: &u64, val: &Neighbours) -> Result<u64, NoMemory> {
        Ok(val.size())
    }

    fn unit() -> u64 {
        0
    }

    fn combine<C: Ledger>(
        _alloc: Global,
        a: &u64,
        b: &u64,
        steps: &mut Steps<C>,
    ) -> Result<u64, NoMemory> {
        steps.tick();
        Ok(a.saturating_add(*b))
    }

    fn is_total() -> bool {
        true
    }
}
