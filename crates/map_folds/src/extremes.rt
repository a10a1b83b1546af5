//! The least and the greatest value.
ghost use Rattle.std.specs.Prelude.{◌≡◌, ◌+◌, None, Some, IfOk, IsOk};
ghost use Rattle.std.specs.Ordering.{flip_args};
ghost use Rattle.std.proofs.lemmas.Cmp.{back_total};
ghost use Rattle.aug_monoid.specs.Later.{later_of, later_monoid};

use crate::taking::lesser_shared;
use aug_monoid::{Augment, Key, NoMemory, Share, Steps, greater_shared};
use std::alloc::Global;
use std::marker::PhantomData;
use std::sync::ledger::Ledger;

/// The least value, and none where there is no entry.
#[derive(Drop)]
pub struct Least<K, V> {
    entries: PhantomData<(K, V)>,
}

impl<K: Key, V: Share + Ord> Augment for Least<K, V> {
    type Key = K;

    type Val = V;

    type Aug = Option<V>;

    ghost Fits = { λ _. Unit {0} };

    ghost base_of = { λ _ val. Some val };

    ghost unit_of = { None };

    ghost combined = { later_of (flip_args V.cmp) };

    ghost never_refuses = { V.never_refuses };

    ghost base_fits = { λ _ _. tt };

    ghost monoid = { later_monoid (back_total V.total) };

    ghost augs_never_refuse = { λ refuses. refuses };

    fn base(alloc: Global, _key: &K, val: &V) -> Result<Option<V>, NoMemory> {
        Ok(Some(val.share(alloc)?))
    }

    fn unit() -> Option<V> {
        None
    }

    fn combine<C: Ledger>(
        alloc: Global,
        a: &Option<V>,
        b: &Option<V>,
        steps: &mut Steps<C>,
    ) -> Result<Option<V>, NoMemory> {
        steps.tick();
        lesser_shared(alloc, a, b)
    }

    fn is_total() -> bool {
        V::is_total()
    }
}

/// The greatest value, and none where there is no entry.
#[derive(Drop)]
pub struct Greatest<K, V> {
    entries: PhantomData<(K, V)>,
}

impl<K: Key, V: Share + Ord> Augment for Greatest<K, V> {
    type Key = K;

    type Val = V;

    type Aug = Option<V>;

    ghost Fits = { λ _. Unit {0} };

    ghost base_of = { λ _ val. Some val };

    ghost unit_of = { None };

    ghost combined = { later_of V.cmp };

    ghost never_refuses = { V.never_refuses };

    ghost base_fits = { λ _ _. tt };

    ghost monoid = { later_monoid V.total };

    ghost augs_never_refuse = { λ refuses. refuses };

    fn base(alloc: Global, _key: &K, val: &V) -> Result<Option<V>, NoMemory> {
        Ok(Some(val.share(alloc)?))
    }

    fn unit() -> Option<V> {
        None
    }

    fn combine<C: Ledger>(
        alloc: Global,
        a: &Option<V>,
        b: &Option<V>,
        steps: &mut Steps<C>,
    ) -> Result<Option<V>, NoMemory> {
        steps.tick();
        greater_shared(alloc, a, b)
    }

    fn is_total() -> bool {
        V::is_total()
    }
}
