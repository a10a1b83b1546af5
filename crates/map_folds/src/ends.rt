//! The values of the least and of the greatest key.
ghost use Rattle.std.specs.Prelude.{◌≡◌, ◌+◌, None, Some, IfOk, IsOk};
ghost use Rattle.map_folds.specs.Ends.{first_of, last_of, first_monoid, last_monoid};

use aug_monoid::{Augment, Key, NoMemory, Share, Steps};
use std::alloc::Global;
use std::marker::PhantomData;
use std::sync::ledger::Ledger;

/// The value of the least key, and none where there is no entry.
#[derive(Drop)]
pub struct FirstValue<K, V> {
    entries: PhantomData<(K, V)>,
}

impl<K: Key, V: Share> Augment for FirstValue<K, V> {
    type Key = K;

    type Val = V;

    type Aug = Option<V>;

    ghost Fits = { λ _. Unit {0} };

    ghost base_of = { λ _ val. Some val };

    ghost unit_of = { None };

    ghost combined = { first_of };

    ghost never_refuses = { V.never_refuses };

    ghost base_fits = { λ _ _. tt };

    ghost monoid = { first_monoid };

    ghost augs_never_refuse = { λ refuses. refuses };

    fn base(alloc: Global, _key: &K, val: &V) -> Result<Option<V>, NoMemory> {
        Ok(Some(val.share(alloc)?))
    }

    fn unit() -> Option<V> {
        None
    }

    fn combine<C: Ledger>(
        alloc: Global,
        a: &Option<V>,
        b: &Option<V>,
        steps: &mut Steps<C>,
    ) -> Result<Option<V>, NoMemory> {
        steps.tick();
        match a {
            Some(_) => a.share(alloc),
            None => b.share(alloc),
        }
    }

    fn is_total() -> bool {
        V::is_total()
    }
}

/// The value of the greatest key, and none where there is no entry.
#[derive(Drop)]
pub struct LastValue<K, V> {
    entries: PhantomData<(K, V)>,
}

impl<K: Key, V: Share> Augment for LastValue<K, V> {
    type Key = K;

    type Val = V;

    type Aug = Option<V>;

    ghost Fits = { λ _. Unit {0} };

    ghost base_of = { λ _ val. Some val };

    ghost unit_of = { None };

    ghost combined = { last_of };

    ghost never_refuses = { V.never_refuses };

    ghost base_fits = { λ _ _. tt };

    ghost monoid = { last_monoid };

    ghost augs_never_refuse = { λ refuses. refuses };

    fn base(alloc: Global, _key: &K, val: &V) -> Result<Option<V>, NoMemory> {
        Ok(Some(val.share(alloc)?))
    }

    fn unit() -> Option<V> {
        None
    }

    fn combine<C: Ledger>(
        alloc: Global,
        a: &Option<V>,
        b: &Option<V>,
        steps: &mut Steps<C>,
    ) -> Result<Option<V>, NoMemory> {
        steps.tick();
        match b {
            Some(_) => b.share(alloc),
            None => a.share(alloc),
        }
    }

    fn is_total() -> bool {
        V::is_total()
    }
}
