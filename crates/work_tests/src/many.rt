//! How many keys are compared where many keys are looked up.
ghost use Rattle.aug_monoid.specs.Fresh.{IsFresh};

use crate::changes::Block;
use crate::counted::Counted;
use crate::sums::Sums;
use crate::work::Work;
use aug_map::Map;
use aug_monoid::Steps;
use std::alloc::Global;
use std::marker::Brand;
use std::process::Abort;
use std::sync::ledger::{Blank, Ledger};

/// How many entries the map has.
const ENTRIES: u64 = 8_192;

/// The map of the numbers below `ENTRIES`.
fn numbers<'a, R: Abort>(rt: &R, alloc: Global, work: &'a Work) -> Map<Sums<'a>, Block<'a>, 32> {
    let mut pairs = Vec::new(alloc);
    for number in 0..ENTRIES {
        pairs
            .push((Counted::new(number, work), number))
            .expect(rt, "memory");
    }
    Map::build_alone(alloc, &pairs).expect(rt, "memory")
}

/// All keys of the map, in order.
fn keys<'a, R: Abort>(rt: &R, alloc: Global, work: &'a Work) -> Vec<Counted<'a>> {
    let mut keys = Vec::new(alloc);
    for number in 0..ENTRIES {
        keys.push(Counted::new(number, work)).expect(rt, "memory");
    }
    keys
}

/// How many keys are compared where they are looked up one after another, and where all are at once.
fn compared_counted<R: Abort, C: Ledger>(rt: &R, alloc: Global, blank: Blank) -> (u64, u64)
    requires { IsFresh C.name C.parts blank }
{
    let mut steps = Steps::<C>::start(blank);
    let work = Work::new();
    let map = numbers(rt, alloc, &work);
    let keys = keys(rt, alloc, &work);
    work.take();
    for key in &keys {
        map.get(alloc, key, &mut steps).expect(rt, "memory");
    }
    let one_by_one = work.take().compared;
    map.get_many(alloc, &keys).expect(rt, "memory");
    (one_by_one, work.take().compared)
}

fn compared<R: Abort>(rt: &R, alloc: Global) -> (u64, u64) {
    compared_counted::<R, Brand>(rt, alloc, Blank::new(1))
}

// One after another a key is compared with some thirteen others; at once with its neighbour, as keys are looked through to see whether
// they are sorted, and with two or three of the map.
#[test]
fn sorted_keys_are_compared_a_third_as_often(rt: HostRuntime) {
    let (one_by_one, at_once) = compared(&rt, rt.alloc());
    assert!(rt; at_once <= one_by_one / 3);
}
