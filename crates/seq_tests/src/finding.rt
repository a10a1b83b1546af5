//! The first place at which a sum passes.

ghost use Rattle.aug_monoid.specs.Fresh.{IsFresh};

use crate::lists::numbers;
use aug_monoid::Steps;
use pac_seq::{Seq, SeqOver, SumFrom, SumTop};
use std::alloc::Global;
use std::marker::Brand;
use std::process::Abort;
use std::sync::ledger::{Blank, Ledger};

type Weights = Seq<SumTop, 2>;

/// The first place with which the weights are at least so much.
fn place_counted<C: Ledger>(
    alloc: Global,
    weights: &Weights,
    least: u64,
    blank: Blank,
) -> Option<u64>
    requires { IsFresh C.name C.parts blank }
{
    let mut steps = Steps::<C>::start(blank);
    weights.first_where(alloc, &SumFrom { least }, &mut steps)
}

fn place<R: Abort>(rt: &R, alloc: Global, items: &[u64], least: u64) -> Option<u64> {
    let weights: Weights = SeqOver::from_items(alloc, items).expect(rt, "memory");
    place_counted::<Brand>(alloc, &weights, least, Blank::new(1))
}

const WEIGHTS: &[u64] = &[5, 0, 3, 2, 1];

#[test]
fn a_number_falls_on_a_weight(rt: HostRuntime) {
    let alloc = rt.alloc();
    assert_eq!(rt; place(&rt, alloc, WEIGHTS, 1), Some(0));
    assert_eq!(rt; place(&rt, alloc, WEIGHTS, 5), Some(0));
    assert_eq!(rt; place(&rt, alloc, WEIGHTS, 6), Some(2));
    assert_eq!(rt; place(&rt, alloc, WEIGHTS, 11), Some(4));
    assert_eq!(rt; place(&rt, alloc, WEIGHTS, 12), None);
}

#[test]
fn nothing_is_asked_or_there(rt: HostRuntime) {
    let alloc = rt.alloc();
    assert_eq!(rt; place(&rt, alloc, WEIGHTS, 0), Some(0));
    assert_eq!(rt; place(&rt, alloc, &[], 0), None);
    assert_eq!(rt; place(&rt, alloc, &[], 1), None);
}

// The sum of the numbers from 1 to 447 is 100128.
#[test]
fn a_place_among_many(rt: HostRuntime) {
    let alloc = rt.alloc();
    let items = numbers(alloc, 1000).expect(&rt, "memory");
    assert_eq!(rt; place(&rt, alloc, &items, 100_000), Some(446));
    assert_eq!(rt; place(&rt, alloc, &items, 100_129), Some(447));
}
