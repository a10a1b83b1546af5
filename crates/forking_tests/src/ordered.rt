//! The calls of `OrdMap` that are told where to run: each half of a fork enters the gate.
ghost use Rattle.std.specs.Prelude.{nat_le};

use crate::tools::Forks;
use aug_monoid::{SatSum, SumMax, Test};
use fork_join::{Cut, On};
use ord_map::OrdMap;
use std::alloc::Global;
use std::marker::Sync;
use std::process::Abort;
use std::thread::Threads;

type Sums = OrdMap<SumMax<u64>>;

/// Values of at least `bound`.
#[derive(Drop)]
struct AtLeast {
    bound: u64,
}

impl Test<u64, u64> for AtLeast {
    ghost passes = { λ test _ val. nat_le test.bound val };

    fn holds(&self, _key: &u64, val: &u64) -> bool {
        self.bound <= *val
    }
}

/// How many entries a map has.
const ENTRIES: u64 = 10_000;

/// Pairs whose keys are every second number from `first` on.
fn pairs_from<R: Abort>(rt: &R, alloc: Global, first: u64) -> Vec<(u64, u64)> {
    let mut list = Vec::new(alloc);
    for place in 0..ENTRIES {
        list.push((first.saturating_add(2 * place), place))
            .expect(rt, "memory");
    }
    list
}

/// Whether anything forks where a map is made of pairs, and whether a half does.
fn made<R: Threads + Abort + Sync>(rt: &R, alloc: Global, cut: Cut) -> (bool, bool) {
    let gate = Forks::new();
    let on = On {
        rt,
        gate: &gate,
        cut,
    };
    let _map = Sums::from_pairs_on(on, alloc, &pairs_from(rt, alloc, 0)).expect(rt, "memory");
    gate.seen()
}

/// The same of the union of two maps, whose keys take turns.
fn united<R: Threads + Abort + Sync>(rt: &R, alloc: Global, cut: Cut) -> (bool, bool) {
    let gate = Forks::new();
    let on = On {
        rt,
        gate: &gate,
        cut,
    };
    let map = Sums::from_pairs(alloc, &pairs_from(rt, alloc, 0)).expect(rt, "memory");
    let other = Sums::from_pairs(alloc, &pairs_from(rt, alloc, 1)).expect(rt, "memory");
    let _both = map
        .union_on(on, alloc, &other, &SatSum)
        .expect(rt, "memory");
    gate.seen()
}

/// The same of the entries that a map retains.
fn retained<R: Threads + Abort + Sync>(rt: &R, alloc: Global, cut: Cut) -> (bool, bool) {
    let gate = Forks::new();
    let on = On {
        rt,
        gate: &gate,
        cut,
    };
    let mut map = Sums::from_pairs(alloc, &pairs_from(rt, alloc, 0)).expect(rt, "memory");
    map.retain_on(on, alloc, &AtLeast { bound: 50 })
        .expect(rt, "memory");
    gate.seen()
}

type Forked = [(bool, bool); 3];

/// What forks where a map is made, where two are united, and where one retains entries.
fn forked<R: Threads + Abort + Sync>(rt: &R, alloc: Global, cut: Cut) -> Forked {
    [
        made(rt, alloc, cut),
        united(rt, alloc, cut),
        retained(rt, alloc, cut),
    ]
}

#[test]
fn calls_of_a_map_fork_as_their_cut_lets_them(rt: HostRuntime) {
    let alone = forked(&rt, rt.alloc(), Cut::new(1, 1));
    assert_eq!(rt; alone, [(false, false); 3]);
    let two = forked(&rt, rt.alloc(), Cut::new(2, 1));
    assert_eq!(rt; two, [(true, false); 3]);
    let four = forked(&rt, rt.alloc(), Cut::new(4, 1));
    assert_eq!(rt; four, [(true, true); 3]);
    let too_small = forked(&rt, rt.alloc(), Cut::new(64, 4_294_967_296));
    assert_eq!(rt; too_small, [(false, false); 3]);
}
