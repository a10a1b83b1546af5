//! Three augmented values of one map.
ghost use Rattle.std.specs.Prelude.{◌≡◌, ◌+◌, IfOk, IsOk};
ghost use Rattle.aug_monoid.specs.Fresh.{IsFresh};
ghost use Rattle.map_folds.specs.Triples.{TripleFits, triple_combine, triple_monoid};

use aug_monoid::{Augment, NoMemory, Steps};
use std::alloc::Global;
use std::marker::{Brand, PhantomData};
use std::sync::ledger::{Blank, Ledger};

/// Three augmented values over the same keys and values.
#[derive(Drop)]
pub struct Triple<A1, A2, A3> {
    all: PhantomData<(A1, A2, A3)>,
}

impl<
    A1: Augment,
    A2: Augment<Key = A1::Key, Val = A1::Val>,
    A3: Augment<Key = A1::Key, Val = A1::Val>,
> Augment for Triple<A1, A2, A3> {
    type Key = A1::Key;

    type Val = A1::Val;

    type Aug = (A1::Aug, A2::Aug, A3::Aug);

    ghost Fits = { TripleFits A1.Fits A2.Fits A3.Fits };

    ghost base_of = { λ key val. (A1.base_of key val, A2.base_of key val, A3.base_of key val) };

    ghost unit_of = { (A1.unit_of, A2.unit_of, A3.unit_of) };

    ghost combined = { triple_combine A1.combined A2.combined A3.combined };

    ghost never_refuses = { A1.never_refuses × A2.never_refuses × A3.never_refuses };

    ghost base_fits = { λ key val. (A1.base_fits key val, A2.base_fits key val, A3.base_fits key val) };

    ghost monoid = { triple_monoid A1.monoid A2.monoid A3.monoid };

    ghost augs_never_refuse = { λ refuses. (A1.augs_never_refuse refuses.0, A2.augs_never_refuse refuses.1, A3.augs_never_refuse refuses.2) };

    fn base(
        alloc: Global,
        key: &A1::Key,
        val: &A1::Val,
    ) -> Result<(A1::Aug, A2::Aug, A3::Aug), NoMemory> {
        let first = A1::base(alloc, key, val)?;
        let second = A2::base(alloc, key, val)?;
        let third = A3::base(alloc, key, val)?;
        Ok((first, second, third))
    }

    fn unit() -> (A1::Aug, A2::Aug, A3::Aug) {
        (A1::unit(), A2::unit(), A3::unit())
    }

    fn combine<C: Ledger>(
        alloc: Global,
        a: &(A1::Aug, A2::Aug, A3::Aug),
        b: &(A1::Aug, A2::Aug, A3::Aug),
        steps: &mut Steps<C>,
    ) -> Result<(A1::Aug, A2::Aug, A3::Aug), NoMemory> {
        steps.tick();
        combine_all::<A1, A2, A3, Brand>(alloc, a, b, Blank::new(1))
    }

    fn is_total() -> bool {
        A1::is_total() && A2::is_total() && A3::is_total()
    }

    #[tactic(auto, using(crate::proofs::Commutes::triple_commutes))]
    fn commutes() -> bool {
        A1::commutes() && A2::commutes() && A3::commutes()
    }
}

// A generic function that a method of the impl calls. It counts the steps of the parts for itself.
fn combine_all<A1: Augment, A2: Augment, A3: Augment, C: Ledger>(
    alloc: Global,
    a: &(A1::Aug, A2::Aug, A3::Aug),
    b: &(A1::Aug, A2::Aug, A3::Aug),
    blank: Blank,
) -> Result<(A1::Aug, A2::Aug, A3::Aug), NoMemory>
    requires { IsFresh C.name C.parts blank }
    ensures value { IfOk result (λ aug. aug ≡ triple_combine A1.combined A2.combined A3.combined a.now b.now) }
    ensures succeeds { A1.never_refuses → A2.never_refuses → A3.never_refuses → IsOk result }
{
    let mut own = Steps::<C>::start(blank);
    let first = A1::combine(alloc, &a.0, &b.0, &mut own)?;
    let (second, third) = combine_two::<A2, A3, C>(alloc, &a.1, &b.1, &a.2, &b.2, &mut own)?;
    Ok((first, second, third))
}

// Apart from the first part, so that no function owns an answer at three refusals.
fn combine_two<A2: Augment, A3: Augment, C: Ledger>(
    alloc: Global,
    a: &A2::Aug,
    b: &A2::Aug,
    c: &A3::Aug,
    d: &A3::Aug,
    own: &mut Steps<C>,
) -> Result<(A2::Aug, A3::Aug), NoMemory>
    ensures value { IfOk result (λ aug. aug ≡ (A2.combined a.now b.now, A3.combined c.now d.now)) }
    ensures succeeds { A2.never_refuses → A3.never_refuses → IsOk result }
{
    let second = A2::combine(alloc, a, b, own)?;
    let third = A3::combine(alloc, c, d, own)?;
    Ok((second, third))
}
