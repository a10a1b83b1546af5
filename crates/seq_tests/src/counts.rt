//! Items of any kind, which are counted.
ghost use Rattle.std.specs.Prelude.{◌≡◌, ◌+◌, ◌-◌, ◌^◌, ◌≤◌, min, nat_le};
ghost use Rattle.std.proofs.Common.{arith};
ghost use Rattle.std.proofs.lemmas.Bool.Decides.{nat_tests};

use aug_monoid::{Share, Steps};
use pac_seq::{Fold, SumTest};
use std::marker::PhantomData;
use std::sync::ledger::Ledger;

/// How many items there are; more than `u64::MAX` are that many.
#[derive(Drop)]
pub(crate) struct Count<T: Share> {
    items: PhantomData<T>,
}

impl<T: Share> Fold for Count<T> {
    type Item = T;

    type Sum = u64;

    ghost Fits = { λ n. n ≤ 2 ^ 64 - 1 };

    ghost image_of = { λ _. 1 };

    ghost unit_of = { 0 };

    ghost combined = { λ a b. min (a + b) (2 ^ 64 - 1) };

    ghost image_fits = { λ _. Prim.omega arith };

    ghost monoid = { record { unit_fits = Prim.omega arith; combine_fits = λ a b f g. Prim.omega arith; left_unit = λ a f. Prim.omega arith; right_unit = λ a f. Prim.omega arith; assoc = λ a b c f g h. Prim.omega arith } };

    ghost sums_never_refuse = { tt };

    fn of(_item: &T) -> u64 {
        1
    }

    fn unit() -> u64 {
        0
    }

    fn combine<C: Ledger>(a: &u64, b: &u64, steps: &mut Steps<C>) -> u64 {
        steps.tick();
        a.saturating_add(*b)
    }
}

/// At least so many items.
#[derive(Drop)]
pub(crate) struct CountFrom {
    pub(crate) least: u64,
}

impl<T: Share> SumTest<Count<T>> for CountFrom {
    ghost admits = { λ test count. nat_le test.least count };

    ghost stays = { λ test a b f g passed. Prim.grind (arith, nat_tests) };

    fn passes(&self, count: &u64) -> bool {
        self.least <= *count
    }
}
