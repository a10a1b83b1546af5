//! Whether some or all of the values are `true`.
ghost use Rattle.std.specs.Prelude.{◌≡◌, ◌+◌, ◌&&◌, ◌||◌, false, true, IfOk, IsOk};
ghost use Rattle.map_folds.specs.Truths.{any_monoid, all_monoid};

use aug_monoid::{Augment, Key, NoMemory, Steps};
use std::alloc::Global;
use std::marker::PhantomData;
use std::sync::ledger::Ledger;

/// Whether some value is `true`.
#[derive(Drop)]
pub struct AnyTrue<K> {
    keys: PhantomData<K>,
}

impl<K: Key> Augment for AnyTrue<K> {
    type Key = K;

    type Val = bool;

    type Aug = bool;

    ghost Fits = { λ _. Unit {0} };

    ghost base_of = { λ _ val. val };

    ghost unit_of = { false };

    ghost combined = { λ a b. a || b };

    ghost never_refuses = { Unit {0} };

    ghost base_fits = { λ _ _. tt };

    ghost monoid = { any_monoid };

    ghost augs_never_refuse = { λ _. tt };

    fn base(_alloc: Global, _key: &K, val: &bool) -> Result<bool, NoMemory> {
        Ok(*val)
    }

    fn unit() -> bool {
        false
    }

    fn combine<C: Ledger>(
        _alloc: Global,
        a: &bool,
        b: &bool,
        steps: &mut Steps<C>,
    ) -> Result<bool, NoMemory> {
        steps.tick();
        Ok(*a || *b)
    }

    fn is_total() -> bool {
        true
    }

    #[tactic(auto, using(crate::proofs::Commutes::any_commutes))]
    fn commutes() -> bool {
        true
    }
}

/// Whether all values are `true`, as they are where there are none.
#[derive(Drop)]
pub struct AllTrue<K> {
    keys: PhantomData<K>,
}

impl<K: Key> Augment for AllTrue<K> {
    type Key = K;

    type Val = bool;

    type Aug = bool;

    ghost Fits = { λ _. Unit {0} };

    ghost base_of = { λ _ val. val };

    ghost unit_of = { true };

    ghost combined = { λ a b. a && b };

    ghost never_refuses = { Unit {0} };

    ghost base_fits = { λ _ _. tt };

    ghost monoid = { all_monoid };

    ghost augs_never_refuse = { λ _. tt };

    fn base(_alloc: Global, _key: &K, val: &bool) -> Result<bool, NoMemory> {
        Ok(*val)
    }

    fn unit() -> bool {
        true
    }

    fn combine<C: Ledger>(
        _alloc: Global,
        a: &bool,
        b: &bool,
        steps: &mut Steps<C>,
    ) -> Result<bool, NoMemory> {
        steps.tick();
        Ok(*a && *b)
    }

    fn is_total() -> bool {
        true
    }

    #[tactic(auto, using(crate::proofs::Commutes::all_commutes))]
    fn commutes() -> bool {
        true
    }
}
