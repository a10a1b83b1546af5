//! Each operation once at concrete types.
ghost use Rattle.aug_monoid.specs.Fresh.{IsFresh};

use aug_monoid::{NoMemory, SatSum, Steps};
use entry_lists::{difference_of, intersect_of, union_of};
use std::alloc::Global;
use std::marker::Brand;
use std::process::Abort;
use std::sync::ledger::{Blank, Ledger};

const ODD: [(u64, u64); 3] = [(1, 10), (3, 30), (5, 50)];

const LATER: [(u64, u64); 2] = [(3, 4), (4, 40)];

fn check(rt: &impl Abort, list: Result<Vec<(u64, u64)>, NoMemory>, wanted: &[(u64, u64)]) {
    assert_eq!(rt; list.expect(rt, "memory").as_slice(), wanted);
}

/// The union, the intersection and the difference of the two lists.
fn check_counted<R: Abort, C: Ledger>(rt: &R, alloc: Global, blank: Blank)
    requires { IsFresh C.name C.parts blank }
{
    let mut steps = Steps::<C>::start(blank);
    let either = union_of(alloc, &ODD, &LATER, &SatSum, &mut steps);
    check(rt, either, &[(1, 10), (3, 34), (4, 40), (5, 50)]);
    let both = intersect_of(alloc, &ODD, &LATER, &SatSum, &mut steps);
    check(rt, both, &[(3, 34)]);
    let first = difference_of(alloc, &ODD, &LATER, &mut steps);
    check(rt, first, &[(1, 10), (5, 50)]);
}

fn check_each<R: Abort>(rt: &R, alloc: Global) {
    check_counted::<R, Brand>(rt, alloc, Blank::new(1));
}

#[test]
fn two_lists_are_put_together(rt: HostRuntime) {
    check_each(&rt, rt.alloc());
}
