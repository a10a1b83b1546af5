//! Numbers as keys that count how often they are compared and shared.
ghost use Rattle.std.specs.Prelude.{◌≡◌, ◌==◌, IsTrue};
ghost use Rattle.std.proofs.Common.{rules};
ghost use Rattle.std.specs.Cmp.{nat_cmp_total, partial_order_from_own_ties};
ghost use Rattle.std.specs.Cmp.Rules.{comparing};
ghost use Rattle.std.specs.Ordering.{nat_cmp, as_partial_cmp};
ghost use Rattle.map_model.proofs.NatKeys.{nat_exact};

use crate::work::Work;
use aug_monoid::{Key, NoMemory, Share, Steps};
use std::alloc::Global;
use std::cmp;
use std::marker::Model;
use std::sync::atomic::Ordering;
use std::sync::ledger::Ledger;

/// A number that counts how often it is compared and shared.
#[derive(Drop)]
pub(crate) struct Counted<'a> {
    pub(crate) number: u64,
    pub(crate) work: &'a Work,
}

impl<'a> Model for Counted<'a> {
    ghost use Rattle.std.specs.Prelude.{ℕ};

    ghost Value = { ℕ };

    ghost view = { λ k. k.number };
}

impl<'a> Counted<'a> {
    pub(crate) fn new(number: u64, work: &'a Work) -> Counted<'a>
        ensures { result ≡ number }
    {
        Counted { number, work }
    }
}

impl<'a> PartialEq for Counted<'a> {
    ghost eq = { ◌==◌ };

    ghost laws = { Prim.search (comparing, rules) };

    fn eq(&self, other: &Counted<'a>) -> bool {
        self.number == other.number
    }
}

impl<'a> Eq for Counted<'a> {
    ghost laws = { Prim.search (comparing, rules) };
}

impl<'a> PartialOrd for Counted<'a> {
    ghost partial_cmp = { as_partial_cmp nat_cmp };

    ghost laws = { partial_order_from_own_ties (Prim.search (comparing, rules)) (Prim.search (comparing, rules)) };

    fn partial_cmp(&self, other: &Counted<'a>) -> Option<cmp::Ordering> {
        Some(self.cmp(other))
    }
}

impl<'a> Ord for Counted<'a> {
    ghost cmp = { nat_cmp };

    ghost total = { nat_cmp_total };

    ghost matches_partial_cmp = { Prim.search (comparing, rules) };

    ghost matches_eq = { Prim.search (comparing, rules) };

    fn cmp(&self, other: &Counted<'a>) -> cmp::Ordering {
        self.work.compared.fetch_add(1, Ordering::SeqCst);
        self.number.cmp(&other.number)
    }
}

impl<'a> Share for Counted<'a> {
    ghost never_refuses = { Unit {0} };

    fn share(&self, _alloc: Global) -> Result<Counted<'a>, NoMemory> {
        self.work.shared.fetch_add(1, Ordering::SeqCst);
        Ok(Counted::new(self.number, self.work))
    }

    fn is_total() -> bool
        ensures { IsTrue result → Unit {0} }
    {
        true
    }
}

impl<'a> Key for Counted<'a> {
    ghost exact = { nat_exact };

    fn order<C: Ledger>(&self, other: &Counted<'a>, steps: &mut Steps<C>) -> cmp::Ordering {
        steps.tick();
        self.cmp(other)
    }
}
