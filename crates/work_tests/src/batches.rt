//! How many comparisons and combinations maps of many pairs take, and puts and removals of many keys.
ghost use Rattle.aug_monoid.specs.Fresh.{IsFresh};

use crate::changes::Block;
use crate::counted::Counted;
use crate::sums::Sums;
use crate::work::Work;
use aug_map::Map;
use aug_monoid::Steps;
use std::alloc::Global;
use std::marker::Brand;
use std::process::Abort;
use std::sync::ledger::{Blank, Ledger};

type Tally<'a> = Map<Sums<'a>, Block<'a>, 4>;

/// How many entries the map has that is changed.
const ENTRIES: u64 = 100_000;

/// Rising numbers: `count` from `first` on, each `step` more than the one before it.
#[derive(Clone, Copy)]
struct Numbers {
    count: u64,
    first: u64,
    step: u64,
}

/// The numbers as keys.
fn keys_of<'a, R: Abort>(
    rt: &R,
    alloc: Global,
    numbers: Numbers,
    work: &'a Work,
) -> Vec<Counted<'a>> {
    let mut keys = Vec::new(alloc);
    let mut number = numbers.first;
    for _ in 0..numbers.count {
        keys.push(Counted::new(number, work)).expect(rt, "memory");
        number = number.saturating_add(numbers.step);
    }
    keys
}

/// A pair for each of the numbers, again and again in rounds.
fn pairs_of<'a, R: Abort>(
    rt: &R,
    alloc: Global,
    numbers: Numbers,
    rounds: u64,
    work: &'a Work,
) -> Vec<(Counted<'a>, u64)> {
    let mut pairs = Vec::new(alloc);
    for round in 0..rounds {
        for key in keys_of(rt, alloc, numbers, work) {
            pairs.push((key, round)).expect(rt, "memory");
        }
    }
    pairs
}

/// The map of the even numbers below `2 * ENTRIES`.
fn evens<'a, R: Abort>(rt: &R, alloc: Global, work: &'a Work) -> Tally<'a> {
    let numbers = Numbers {
        count: ENTRIES,
        first: 0,
        step: 2,
    };
    Map::build_alone(alloc, &pairs_of(rt, alloc, numbers, 1, work)).expect(rt, "memory")
}

/// How much was counted since it was asked last.
fn spent(work: &Work) -> u64 {
    let taken = work.take();
    taken.compared.saturating_add(taken.combined)
}

/// What the map of 20,000 pairs takes, two of each key.
fn build_takes<R: Abort, C: Ledger>(rt: &R, alloc: Global, steps: &mut Steps<C>) -> u64 {
    let work = Work::new();
    let numbers = Numbers {
        count: 10_000,
        first: 0,
        step: 3,
    };
    let pairs = pairs_of(rt, alloc, numbers, 2, &work);
    work.take();
    let map: Tally<'_> = Map::build_counted(alloc, &pairs, steps).expect(rt, "memory");
    assert_eq!(rt; map.size(), 10_000);
    spent(&work)
}

/// What it takes to put so many new keys into the map, `step` apart.
fn put_takes<R: Abort, C: Ledger>(
    rt: &R,
    alloc: Global,
    count: u64,
    step: u64,
    steps: &mut Steps<C>,
) -> u64 {
    let work = Work::new();
    let map = evens(rt, alloc, &work);
    let first = 1;
    let pairs = pairs_of(rt, alloc, Numbers { count, first, step }, 1, &work);
    work.take();
    let put = map
        .multi_put_counted(alloc, &pairs, steps)
        .expect(rt, "memory");
    assert_eq!(rt; put.size(), ENTRIES.saturating_add(count));
    spent(&work)
}

/// What it takes to remove so many keys of the map, `step` apart.
fn removal_takes<R: Abort, C: Ledger>(
    rt: &R,
    alloc: Global,
    count: u64,
    step: u64,
    steps: &mut Steps<C>,
) -> u64 {
    let work = Work::new();
    let map = evens(rt, alloc, &work);
    let first = 0;
    let keys = keys_of(rt, alloc, Numbers { count, first, step }, &work);
    work.take();
    let left = map
        .multi_del_counted(alloc, &keys, steps)
        .expect(rt, "memory");
    assert_eq!(rt; left.size(), ENTRIES.saturating_sub(count));
    spent(&work)
}

/// What a build takes, and what puts and removals of 10 and of 1,000 keys take at most.
fn most_counted<R: Abort, C: Ledger>(rt: &R, alloc: Global, blank: Blank) -> [u64; 3]
    requires { IsFresh C.name C.parts blank }
{
    let mut steps = Steps::<C>::start(blank);
    let built = build_takes(rt, alloc, &mut steps);
    let few_put = put_takes(rt, alloc, 10, 20_000, &mut steps);
    let few_removed = removal_takes(rt, alloc, 10, 20_000, &mut steps);
    let many_put = put_takes(rt, alloc, 1_000, 200, &mut steps);
    let many_removed = removal_takes(rt, alloc, 1_000, 200, &mut steps);
    [built, few_put.max(few_removed), many_put.max(many_removed)]
}

fn most<R: Abort>(rt: &R, alloc: Global) -> [u64; 3] {
    most_counted::<R, Brand>(rt, alloc, Blank::new(1))
}

/// What these take at most. With each pair compared with each the first would take more than 100,000,000, and with every entry of
/// the map looked at the others more than 100,000.
const LIMITS: [u64; 3] = [100_000, 2_000, 100_000];

#[test]
fn batches_go_over_neither_all_pairs_of_pairs_nor_the_map(rt: HostRuntime) {
    let [built, few, many] = most(&rt, rt.alloc());
    assert!(rt; built <= LIMITS[0]);
    assert!(rt; few <= LIMITS[1]);
    assert!(rt; many <= LIMITS[2]);
}
