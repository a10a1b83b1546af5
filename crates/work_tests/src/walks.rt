//! What a walk over all entries of a map takes.
ghost use Rattle.aug_monoid.specs.Fresh.{IsFresh};

use crate::changes::{Block, ENTRIES, evens};
use crate::counted::Counted;
use crate::sums::Sums;
use crate::work::Work;
use aug_map::Map;
use aug_monoid::{Augment, Leaf, LeafMut, Steps};
use std::alloc::Global;
use std::marker::Brand;
use std::process::Abort;
use std::sync::ledger::{Blank, Ledger};

/// How many entries a cursor gives.
fn count_of<R: Abort, A: Augment, L: Leaf<A::Key, A::Val>, const B: usize>(
    rt: &R,
    alloc: Global,
    map: &Map<A, L, B>,
) -> u64 {
    let mut count: u64 = 0;
    for entry in map.cursor(alloc) {
        entry.expect(rt, "entry");
        count = count.saturating_add(1);
    }
    count
}

/// Whether a walk gives every entry, shares each key once and compares none.
fn shares_each_in<'a, R: Abort, L: LeafMut<Counted<'a>, u64>, const B: usize, C: Ledger>(
    rt: &R,
    alloc: Global,
    work: &'a Work,
    steps: &mut Steps<C>,
) -> bool {
    let map = evens::<R, L, B, C>(rt, alloc, work, steps);
    work.take();
    let count = count_of(rt, alloc, &map);
    let taken = work.take();
    count == ENTRIES && taken.shared == ENTRIES && taken.compared == 0
}

/// The same for blocks of 1, 2 and 32 entries.
fn shares_each_at_sizes<'a, R: Abort, L: LeafMut<Counted<'a>, u64>, C: Ledger>(
    rt: &R,
    alloc: Global,
    work: &'a Work,
    steps: &mut Steps<C>,
) -> [bool; 3] {
    let one = shares_each_in::<R, L, 1, C>(rt, alloc, work, steps);
    let two = shares_each_in::<R, L, 2, C>(rt, alloc, work, steps);
    let many = shares_each_in::<R, L, 32, C>(rt, alloc, work, steps);
    [one, two, many]
}

fn shares_each_counted<R: Abort, C: Ledger>(rt: &R, alloc: Global, blank: Blank) -> [bool; 3]
    requires { IsFresh C.name C.parts blank }
{
    let mut steps = Steps::<C>::start(blank);
    let work = Work::new();
    shares_each_at_sizes::<R, Block<'_>, C>(rt, alloc, &work, &mut steps)
}

fn shares_each<R: Abort>(rt: &R, alloc: Global) -> [bool; 3] {
    shares_each_counted::<R, Brand>(rt, alloc, Blank::new(1))
}

// A cursor that looked for the next block by its first key would compare keys for each.
#[test]
fn a_walk_compares_no_keys_and_shares_each_once(rt: HostRuntime) {
    assert_eq!(rt; shares_each(&rt, rt.alloc()), [true; 3]);
}
