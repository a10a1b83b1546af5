//! The sum of a map's values, which counts how often sums are combined.
ghost use Rattle.std.specs.Prelude.{◌≡◌, ◌+◌, ◌-◌, ◌^◌, ◌≤◌, min, IsTrue};
ghost use Rattle.std.proofs.Common.{arith};
ghost use Rattle.aug_monoid.specs.Commuting.{IsCommutativeOver};

use crate::counted::Counted;
use crate::work::Work;
use aug_monoid::{Augment, NoMemory, Share, Steps};
use std::alloc::Global;
use std::marker::{Model, PhantomData};
use std::sync::atomic::Ordering;
use std::sync::ledger::Ledger;

/// A sum, with the counts of its keys; the sum of no values has none.
#[derive(Drop)]
pub(crate) struct Sum<'a> {
    pub(crate) total: u64,
    work: Option<&'a Work>,
}

impl<'a> Model for Sum<'a> {
    ghost use Rattle.std.specs.Prelude.{ℕ};

    ghost Value = { ℕ };

    ghost view = { λ s. s.total };
}

impl<'a> Share for Sum<'a> {
    ghost never_refuses = { Unit {0} };

    fn share(&self, _alloc: Global) -> Result<Sum<'a>, NoMemory> {
        Ok(Sum {
            total: self.total,
            work: self.work,
        })
    }

    fn is_total() -> bool
        ensures { IsTrue result → Unit {0} }
    {
        true
    }
}

/// The saturating sum of the values.
#[derive(Drop)]
pub(crate) struct Sums<'a> {
    keys: PhantomData<Counted<'a>>,
}

impl<'a> Augment for Sums<'a> {
    type Key = Counted<'a>;

    type Val = u64;

    type Aug = Sum<'a>;

    ghost Fits = { λ n. n ≤ 2 ^ 64 - 1 };

    ghost base_of = { λ _ val. min val (2 ^ 64 - 1) };

    ghost unit_of = { 0 };

    ghost combined = { λ a b. min (a + b) (2 ^ 64 - 1) };

    ghost never_refuses = { Unit {0} };

    ghost base_fits = { λ _ _. omega arith };

    ghost monoid = { record { unit_fits = omega arith; combine_fits = λ a b f g. omega arith; left_unit = λ a f. omega arith; right_unit = λ a f. omega arith; assoc = λ a b c f g h. omega arith } };

    ghost augs_never_refuse = { λ _. tt };

    fn base(_alloc: Global, key: &Counted<'a>, val: &u64) -> Result<Sum<'a>, NoMemory> {
        Ok(Sum {
            total: *val,
            work: Some(key.work),
        })
    }

    fn unit() -> Sum<'a> {
        Sum {
            total: 0,
            work: None,
        }
    }

    fn combine<C: Ledger>(
        _alloc: Global,
        a: &Sum<'a>,
        b: &Sum<'a>,
        steps: &mut Steps<C>,
    ) -> Result<Sum<'a>, NoMemory> {
        steps.tick();
        let work = a.work.or(b.work);
        if let Some(work) = work {
            work.combined.fetch_add(1, Ordering::SeqCst);
        }
        Ok(Sum {
            total: a.total.saturating_add(b.total),
            work,
        })
    }

    fn is_total() -> bool
        ensures { IsTrue result → Unit {0} }
    {
        true
    }

    #[tactic(auto, using(crate::proofs::Commutes::sums_commute))]
    fn commutes() -> bool
        ensures { IsTrue result → IsCommutativeOver (λ n. n ≤ 2 ^ 64 - 1) (λ a b. min (a + b) (2 ^ 64 - 1)) }
    {
        true
    }
}
