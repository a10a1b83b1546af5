//! How many entries there are.
ghost use Rattle.std.specs.Prelude.{◌≡◌, ◌+◌, IfOk, IsOk};
ghost use Rattle.map_folds.specs.Sums.{Within64, capped_sum, capped_monoid, one_fits};

use aug_monoid::{Augment, Key, NoMemory, Share, Steps};
use std::alloc::Global;
use std::marker::PhantomData;
use std::sync::ledger::Ledger;

/// How many entries there are. It stops at `u64::MAX`, which no map reaches.
#[derive(Drop)]
pub struct Count<K, V> {
    entries: PhantomData<(K, V)>,
}

impl<K: Key, V: Share> Augment for Count<K, V> {
    type Key = K;

    type Val = V;

    type Aug = u64;

    ghost Fits = { Within64 };

    ghost base_of = { λ _ _. 1 };

    ghost unit_of = { 0 };

    ghost combined = { capped_sum };

    ghost never_refuses = { Unit {0} };

    ghost base_fits = { λ _ _. one_fits };

    ghost monoid = { capped_monoid };

    ghost augs_never_refuse = { λ _. tt };

    fn base(_alloc: Global, _key: &K, _val: &V) -> Result<u64, NoMemory> {
        Ok(1)
    }

    fn unit() -> u64 {
        0
    }

    fn combine<C: Ledger>(
        _alloc: Global,
        a: &u64,
        b: &u64,
        steps: &mut Steps<C>,
    ) -> Result<u64, NoMemory> {
        steps.tick();
        Ok(a.saturating_add(*b))
    }

    fn is_total() -> bool {
        true
    }

    #[tactic(auto, using(crate::proofs::Commutes::capped_commutes))]
    fn commutes() -> bool {
        true
    }
}
