//! How many keys are compared where a list is cut.
ghost use Rattle.aug_monoid.specs.Fresh.{IsFresh};

use crate::changes::Block;
use crate::counted::Counted;
use crate::sums::Sums;
use crate::work::Work;
use aug_map::Map;
use aug_monoid::Steps;
use entry_lists::cut_slice;
use std::alloc::Global;
use std::marker::Brand;
use std::process::Abort;
use std::sync::ledger::{Blank, Ledger};

/// The numbers below 1000 as keys and values, in the order of a map.
fn numbers<'a, R: Abort>(rt: &R, alloc: Global, work: &'a Work) -> Map<Sums<'a>, Block<'a>, 32> {
    let mut pairs = Vec::new(alloc);
    for number in 0..1000u64 {
        pairs
            .push((Counted::new(number, work), number))
            .expect(rt, "memory");
    }
    Map::build_alone(alloc, &pairs).expect(rt, "memory")
}

/// How many keys are compared where they are cut at a key.
fn compared_counted<R: Abort, C: Ledger>(rt: &R, alloc: Global, key: u64, blank: Blank) -> u64
    requires { IsFresh C.name C.parts blank }
{
    let mut steps = Steps::<C>::start(blank);
    let work = Work::new();
    let map = numbers(rt, alloc, &work);
    let list = map.to_vec(alloc).expect(rt, "memory");
    let _size = map.size(); // for the proof alone: keys rise
    work.take();
    let _parts = cut_slice(&list, &Counted::new(key, &work), &mut steps);
    work.take().compared
}

fn compared<R: Abort>(rt: &R, alloc: Global, key: u64) -> u64 {
    compared_counted::<R, Brand>(rt, alloc, key, Blank::new(1))
}

// Ten halves of a thousand, and the key itself.
#[test]
fn a_list_is_cut_by_halves(rt: HostRuntime) {
    for key in [0, 500, 900, 2000] {
        assert!(rt; compared(&rt, rt.alloc(), key) <= 12);
    }
}
