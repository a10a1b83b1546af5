//! The greatest right end of a map of intervals with values, whose ends are keys.
ghost use Rattle.std.specs.Prelude.{◌≡◌, ◌+◌, None, Some, IfOk, IsOk};
ghost use Rattle.aug_monoid.specs.Later.{later_of, later_monoid};

use crate::augment::Augment;
use crate::greater::greater_shared;
use crate::key::Key;
use crate::no_memory::NoMemory;
use crate::share::Share;
use crate::span::Span;
use crate::steps::Steps;
use std::alloc::Global;
use std::marker::PhantomData;
use std::sync::ledger::Ledger;

/// The greatest right end of the keys, which are intervals, and `None` where there is no key.
#[derive(Drop)]
pub struct MaxRightOf<E, V> {
    entries: PhantomData<(E, V)>,
}

impl<E: Key, V: Share> Augment for MaxRightOf<E, V> {
    type Key = Span<E>;

    type Val = V;

    type Aug = Option<E>;

    ghost Fits = { λ _. Unit {0} };

    ghost base_of = { λ key _. Some key.right };

    ghost unit_of = { None };

    ghost combined = { later_of E.cmp };

    ghost never_refuses = { E.never_refuses };

    ghost base_fits = { λ _ _. tt };

    ghost monoid = { later_monoid E.total };

    ghost augs_never_refuse = { λ refuses. refuses };

    fn base(alloc: Global, key: &Span<E>, _val: &V) -> Result<Option<E>, NoMemory> {
        Ok(Some(key.right.share(alloc)?))
    }

    fn unit() -> Option<E> {
        None
    }

    fn combine<C: Ledger>(
        alloc: Global,
        a: &Option<E>,
        b: &Option<E>,
        steps: &mut Steps<C>,
    ) -> Result<Option<E>, NoMemory> {
        steps.tick();
        greater_shared(alloc, a, b)
    }

    fn is_total() -> bool {
        E::is_total()
    }

    #[tactic(auto, using(crate::proofs::Commutes::later_commutes))]
    fn commutes() -> bool {
        true
    }
}
