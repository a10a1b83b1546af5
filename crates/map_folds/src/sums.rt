//! Sums of the values.
ghost use Rattle.std.specs.Prelude.{◌≡◌, ◌+◌, Some, pos, IfOk, IsOk};
ghost use Rattle.std.proofs.Common.{rules};
ghost use Rattle.map_folds.specs.Sums.{Within64, capped, capped_sum, capped_monoid, capped_fits};
ghost use Rattle.map_folds.specs.Sums.{SumWithin64, within64, checked_sum, checked_monoid, within64_fits};
ghost use Rattle.map_folds.specs.Sums.{FitsI128, in_128, signed_sum, signed_monoid, in_128_fits};

use aug_monoid::{Augment, Key, NoMemory, Steps};
use std::alloc::Global;
use std::marker::PhantomData;
use std::sync::ledger::Ledger;

/// The sum of the values; one above `u64::MAX` is kept as `u64::MAX`.
#[derive(Drop)]
pub struct SaturatingSum<K> {
    keys: PhantomData<K>,
}

impl<K: Key> Augment for SaturatingSum<K> {
    type Key = K;

    type Val = u64;

    type Aug = u64;

    ghost Fits = { Within64 };

    ghost base_of = { λ _ val. capped val };

    ghost unit_of = { 0 };

    ghost combined = { capped_sum };

    ghost never_refuses = { Unit {0} };

    ghost base_fits = { λ _ val. capped_fits val };

    ghost monoid = { capped_monoid };

    ghost augs_never_refuse = { λ _. tt };

    fn base(_alloc: Global, _key: &K, val: &u64) -> Result<u64, NoMemory> {
        Ok(*val)
    }

    fn unit() -> u64 {
        0
    }

    fn combine<C: Ledger>(
        _alloc: Global,
        a: &u64,
        b: &u64,
        steps: &mut Steps<C>,
    ) -> Result<u64, NoMemory> {
        steps.tick();
        Ok(a.saturating_add(*b))
    }

    fn is_total() -> bool {
        true
    }

    #[tactic(auto, using(crate::proofs::Commutes::capped_commutes))]
    fn commutes() -> bool {
        true
    }
}

/// The sum of the values, and none where it is above `u64::MAX`.
#[derive(Drop)]
pub struct CheckedSum<K> {
    keys: PhantomData<K>,
}

impl<K: Key> Augment for CheckedSum<K> {
    type Key = K;

    type Val = u64;

    type Aug = Option<u64>;

    ghost Fits = { SumWithin64 };

    ghost base_of = { λ _ val. within64 val };

    ghost unit_of = { Some 0 };

    ghost combined = { checked_sum };

    ghost never_refuses = { Unit {0} };

    ghost base_fits = { λ _ val. within64_fits val };

    ghost monoid = { checked_monoid };

    ghost augs_never_refuse = { λ _. tt };

    fn base(_alloc: Global, _key: &K, val: &u64) -> Result<Option<u64>, NoMemory> {
        Ok(Some(*val))
    }

    fn unit() -> Option<u64> {
        Some(0)
    }

    fn combine<C: Ledger>(
        _alloc: Global,
        a: &Option<u64>,
        b: &Option<u64>,
        steps: &mut Steps<C>,
    ) -> Result<Option<u64>, NoMemory> {
        steps.tick();
        Ok(match (a, b) {
            (Some(x), Some(y)) => x.checked_add(*y),
            _ => None,
        })
    }

    fn is_total() -> bool {
        true
    }

    #[tactic(auto, using(crate::proofs::Commutes::checked_commutes))]
    fn commutes() -> bool {
        true
    }
}

/// The sum of values with a sign, in 128 bits. It wraps beyond them, which takes more than 2^64 values; a map has fewer than 2^60.
#[derive(Drop)]
pub struct SignedSum<K> {
    keys: PhantomData<K>,
}

impl<K: Key> Augment for SignedSum<K> {
    type Key = K;

    type Val = i64;

    type Aug = i128;

    ghost Fits = { FitsI128 };

    ghost base_of = { λ _ val. in_128 val };

    ghost unit_of = { pos 0 };

    ghost combined = { signed_sum };

    ghost never_refuses = { Unit {0} };

    ghost base_fits = { λ _ val. in_128_fits val };

    ghost monoid = { signed_monoid };

    ghost augs_never_refuse = { λ _. tt };

    fn base(_alloc: Global, _key: &K, val: &i64) -> Result<i128, NoMemory> {
        Ok(i128::from(*val))
    }

    fn unit() -> i128 {
        0
    }

    fn combine<C: Ledger>(
        _alloc: Global,
        a: &i128,
        b: &i128,
        steps: &mut Steps<C>,
    ) -> Result<i128, NoMemory> {
        steps.tick();
        Ok(a.wrapping_add(*b))
    }

    fn is_total() -> bool {
        true
    }

    #[tactic(auto, using(crate::proofs::Commutes::signed_commutes))]
    fn commutes() -> bool {
        true
    }
}
