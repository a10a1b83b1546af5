//! The entry with the least or the greatest value.
ghost use Rattle.std.specs.Prelude.{◌≡◌, ◌+◌, None, Some, IfOk, IsOk};
ghost use Rattle.std.specs.Ordering.{flip_args, on};
ghost use Rattle.std.proofs.lemmas.Cmp.{back_total, on_total};
ghost use Rattle.aug_monoid.specs.Later.{later_of, later_monoid};
ghost use Rattle.map_folds.specs.Later.{by_value};

use crate::taking::{greater_entry, lesser_entry};
use aug_monoid::{Augment, Key, NoMemory, Share, Steps, share_entry};
use std::alloc::Global;
use std::marker::PhantomData;
use std::sync::ledger::Ledger;

/// The entry with the least value, the one of the least key where several have it, and none where there is no entry.
#[derive(Drop)]
pub struct LeastEntry<K, V> {
    entries: PhantomData<(K, V)>,
}

impl<K: Key, V: Share + Ord> Augment for LeastEntry<K, V> {
    type Key = K;

    type Val = V;

    type Aug = Option<(K, V)>;

    ghost Fits = { λ _. Unit {0} };

    ghost base_of = { λ key val. Some (key, val) };

    ghost unit_of = { None };

    ghost combined = { later_of (by_value (flip_args V.cmp)) };

    ghost never_refuses = { K.never_refuses × V.never_refuses };

    ghost base_fits = { λ _ _. tt };

    ghost monoid = { later_monoid (on_total (λ e. e.1) (back_total V.total)) };

    ghost augs_never_refuse = { λ refuses. refuses };

    fn base(alloc: Global, key: &K, val: &V) -> Result<Option<(K, V)>, NoMemory> {
        Ok(Some(share_entry(alloc, key, val)?))
    }

    fn unit() -> Option<(K, V)> {
        None
    }

    fn combine<C: Ledger>(
        alloc: Global,
        a: &Option<(K, V)>,
        b: &Option<(K, V)>,
        steps: &mut Steps<C>,
    ) -> Result<Option<(K, V)>, NoMemory> {
        steps.tick();
        lesser_entry(alloc, a, b)
    }

    fn is_total() -> bool {
        K::is_total() && V::is_total()
    }
}

/// The entry with the greatest value, the one of the least key where several have it, and none where there is no entry.
#[derive(Drop)]
pub struct GreatestEntry<K, V> {
    entries: PhantomData<(K, V)>,
}

impl<K: Key, V: Share + Ord> Augment for GreatestEntry<K, V> {
    type Key = K;

    type Val = V;

    type Aug = Option<(K, V)>;

    ghost Fits = { λ _. Unit {0} };

    ghost base_of = { λ key val. Some (key, val) };

    ghost unit_of = { None };

    ghost combined = { later_of (by_value V.cmp) };

    ghost never_refuses = { K.never_refuses × V.never_refuses };

    ghost base_fits = { λ _ _. tt };

    ghost monoid = { later_monoid (on_total (λ e. e.1) V.total) };

    ghost augs_never_refuse = { λ refuses. refuses };

    fn base(alloc: Global, key: &K, val: &V) -> Result<Option<(K, V)>, NoMemory> {
        Ok(Some(share_entry(alloc, key, val)?))
    }

    fn unit() -> Option<(K, V)> {
        None
    }

    fn combine<C: Ledger>(
        alloc: Global,
        a: &Option<(K, V)>,
        b: &Option<(K, V)>,
        steps: &mut Steps<C>,
    ) -> Result<Option<(K, V)>, NoMemory> {
        steps.tick();
        greater_entry(alloc, a, b)
    }

    fn is_total() -> bool {
        K::is_total() && V::is_total()
    }
}
