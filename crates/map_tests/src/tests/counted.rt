//! Numbers that count how often they are compared.
ghost use Rattle.std.specs.Prelude.{◌≡◌, ◌==◌, IfOk};
ghost use Rattle.std.proofs.Common.{rules};
ghost use Rattle.std.specs.Cmp.{nat_cmp_total, partial_order_from_own_ties};
ghost use Rattle.std.specs.Cmp.Rules.{comparing};
ghost use Rattle.std.specs.Ordering.{nat_cmp, as_partial_cmp};
ghost use Rattle.map_model.proofs.NatKeys.{nat_exact};

use aug_monoid::{Key, NoMemory, Share, Steps};
use std::alloc::Global;
use std::cmp;
use std::marker::Model;
use std::process::Abort;
use std::sync::Arc;
use std::sync::atomic::{AtomicU64, Ordering};
use std::sync::ledger::Ledger;

/// A number that counts how often it is compared.
#[derive(Drop)]
pub(super) struct Counted {
    number: u64,
    compared: Arc<AtomicU64>,
}

impl Model for Counted {
    ghost use Rattle.std.specs.Prelude.{ℕ};

    ghost Value = { ℕ };

    ghost view = { λ k. k.number };
}

impl Counted {
    fn new(number: u64, compared: &Arc<AtomicU64>) -> Result<Counted, NoMemory>
        ensures { IfOk result (λ k. k ≡ number) }
    {
        let compared = Arc::try_clone(compared)?;
        Ok(Counted { number, compared })
    }

    /// The number with its count. Where memory is refused, the test ends here.
    pub(super) fn made<R: Abort>(rt: &R, number: u64, compared: &Arc<AtomicU64>) -> Counted {
        Counted::new(number, compared).expect(rt, "memory")
    }
}

impl PartialEq for Counted {
    ghost eq = { ◌==◌ };

    ghost laws = { Prim.search (comparing, rules) };

    fn eq(&self, other: &Counted) -> bool {
        self.number == other.number
    }
}

impl Eq for Counted {
    ghost laws = { Prim.search (comparing, rules) };
}

impl PartialOrd for Counted {
    ghost partial_cmp = { as_partial_cmp nat_cmp };

    ghost laws = { partial_order_from_own_ties (Prim.search (comparing, rules)) (Prim.search (comparing, rules)) };

    fn partial_cmp(&self, other: &Counted) -> Option<cmp::Ordering> {
        Some(self.cmp(other))
    }
}

impl Ord for Counted {
    ghost cmp = { nat_cmp };

    ghost total = { nat_cmp_total };

    ghost matches_partial_cmp = { Prim.search (comparing, rules) };

    ghost matches_eq = { Prim.search (comparing, rules) };

    fn cmp(&self, other: &Counted) -> cmp::Ordering {
        self.compared.fetch_add(1, Ordering::SeqCst);
        self.number.cmp(&other.number)
    }
}

impl Share for Counted {
    ghost never_refuses = { ⊥ };

    fn share(&self, _alloc: Global) -> Result<Counted, NoMemory> {
        Counted::new(self.number, &self.compared)
    }
}

impl Key for Counted {
    ghost exact = { nat_exact };

    fn order<C: Ledger>(&self, other: &Counted, steps: &mut Steps<C>) -> cmp::Ordering {
        steps.tick();
        self.cmp(other)
    }
}
