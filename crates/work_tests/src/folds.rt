//! What the folds of ranges combine.
ghost use Rattle.map_model.specs.Balance.{IsBlockSize};
ghost use Rattle.aug_monoid.specs.Fresh.{IsFresh};

use crate::changes::{Block, evens};
use crate::counted::Counted;
use crate::sums::Sums;
use crate::work::Work;
use aug_map::Map;
use aug_monoid::{LeafMut, Steps};
use std::alloc::Global;
use std::marker::Brand;
use std::process::Abort;
use std::sync::ledger::{Blank, Ledger};

/// The most that a fold of a range combines.
fn most_combined<'a, R: Abort, L: LeafMut<Counted<'a>, u64>, const B: usize, C: Ledger>(
    rt: &R,
    alloc: Global,
    map: &Map<Sums<'a>, L, B>,
    work: &'a Work,
    steps: &mut Steps<C>,
) -> u64 {
    let mut most = 0;
    for number in [0, 1, 77, 1_024, 4_096, 8_190] {
        let lo = Counted::new(number, work);
        let hi = Counted::new(number + 3_000, work);
        work.take();
        map.aug_left(alloc, &lo, steps).expect(rt, "memory");
        most = work.take().combined.max(most);
        map.aug_right(alloc, &lo, steps).expect(rt, "memory");
        most = work.take().combined.max(most);
        map.aug_range(alloc, &lo, &hi, steps).expect(rt, "memory");
        most = work.take().combined.max(most);
    }
    most
}

fn are_few_in<'a, R: Abort, L: LeafMut<Counted<'a>, u64>, const B: usize, C: Ledger>(
    rt: &R,
    alloc: Global,
    work: &'a Work,
    steps: &mut Steps<C>,
) -> bool
    requires { IsBlockSize B }
{
    let map = evens::<R, L, B, C>(rt, alloc, work, steps);
    let most = most_combined(rt, alloc, &map, work, steps);
    most <= 8 * map.height() as u64 + 16 * B as u64
}

/// The same for blocks of 1, 2 and 32 entries.
fn are_few_at_sizes<'a, R: Abort, L: LeafMut<Counted<'a>, u64>, C: Ledger>(
    rt: &R,
    alloc: Global,
    work: &'a Work,
    steps: &mut Steps<C>,
) -> [bool; 3] {
    let one = are_few_in::<R, L, 1, C>(rt, alloc, work, steps);
    let two = are_few_in::<R, L, 2, C>(rt, alloc, work, steps);
    let many = are_few_in::<R, L, 32, C>(rt, alloc, work, steps);
    [one, two, many]
}

fn are_few_counted<R: Abort, C: Ledger>(rt: &R, alloc: Global, blank: Blank) -> [bool; 3]
    requires { IsFresh C.name C.parts blank }
{
    let mut steps = Steps::<C>::start(blank);
    let work = Work::new();
    are_few_at_sizes::<R, Block<'_>, C>(rt, alloc, &work, &mut steps)
}

fn are_few<R: Abort>(rt: &R, alloc: Global) -> [bool; 3] {
    are_few_counted::<R, Brand>(rt, alloc, Blank::new(1))
}

#[test]
fn folds_of_ranges_combine_along_two_paths(rt: HostRuntime) {
    assert_eq!(rt; are_few(&rt, rt.alloc()), [true; 3]);
}
