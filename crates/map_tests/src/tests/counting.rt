//! A key that counts how often it is compared, on 100000 entries.
ghost use Rattle.map_model.specs.Balance.{IsBlockSize};
ghost use Rattle.aug_monoid.specs.Fresh.{IsFresh};

use super::counted::Counted;
use aug_map::Map;
use aug_monoid::{NoMemory, Steps, SumMax};
use fork_join::{Cut, FreeGate};
use leaf_blocks::PlainLeaf;
use std::alloc::Global;
use std::marker::{Brand, Sync};
use std::process::Abort;
use std::sync::Arc;
use std::sync::atomic::{AtomicU64, Ordering};
use std::sync::ledger::{Blank, Ledger};
use std::thread::Threads;

type Counts<const B: usize> = Map<SumMax<Counted>, PlainLeaf<Counted, u64>, B>;

/// The even numbers below 200000, each with 1 as value.
fn evens<R: Abort>(rt: &R, alloc: Global, compared: &Arc<AtomicU64>) -> Vec<(Counted, u64)> {
    let mut entries = Vec::new(alloc);
    for half in 0..100000 {
        let number = Counted::made(rt, half * 2, compared);
        entries.push((number, 1)).expect(rt, "memory");
    }
    entries
}

/// How many comparisons there were, which starts anew.
fn taken(compared: &AtomicU64) -> u64 {
    compared.swap(0, Ordering::SeqCst)
}

/// How many comparisons a look-up took, and three folds together.
type Taken = (u64, u64);

/// Compares a look-up and folds at a key.
fn taken_at<R: Abort, const B: usize, C: Ledger>(
    rt: &R,
    alloc: Global,
    map: &Counts<B>,
    compared: &Arc<AtomicU64>,
    number: u64,
    steps: &mut Steps<C>,
) -> Taken {
    let lo = Counted::made(rt, number, compared);
    let hi = Counted::made(rt, number.saturating_add(50_000), compared);
    taken(compared);
    map.get(alloc, &lo, steps).expect(rt, "memory");
    let get = taken(compared);
    map.aug_left(alloc, &lo, steps).expect(rt, "memory");
    let left = taken(compared);
    map.aug_right(alloc, &lo, steps).expect(rt, "memory");
    let right = taken(compared);
    map.aug_range(alloc, &lo, &hi, steps).expect(rt, "memory");
    (get, left.max(right).max(taken(compared)))
}

/// The greatest numbers of comparisons that a look-up and a fold took.
fn greatest<R: Abort, const B: usize, C: Ledger>(
    rt: &R,
    alloc: Global,
    map: &Counts<B>,
    compared: &Arc<AtomicU64>,
    steps: &mut Steps<C>,
) -> Taken {
    let mut most = (0, 0);
    for number in [0, 1, 99, 77_777, 100_000, 123_457, 199_998, 300_000] {
        let (get, fold) = taken_at(rt, alloc, map, compared, number, steps);
        most = (get.max(most.0), fold.max(most.1));
    }
    most
}

/// Whether look-ups and folds keep within their bounds.
fn within_in<R: Threads + Abort + Sync, const B: usize, C: Ledger>(
    rt: &R,
    alloc: Global,
    steps: &mut Steps<C>,
) -> bool
    requires { IsBlockSize B }
{
    let compared = Arc::new(alloc, AtomicU64::new(0)).expect(rt, "memory");
    let entries = evens(rt, alloc, &compared);
    let map: Result<Counts<B>, NoMemory> = Map::build(
        rt,
        alloc,
        &FreeGate,
        Cut::new(1, 1024),
        &entries,
    );
    let map = map.expect(rt, "memory");
    let (get, fold) = greatest(rt, alloc, &map, &compared, steps);
    let height = map.height() as u64;
    get <= height + 9 && fold <= 8 * height + 16 * (B as u64)
}

/// The same for blocks of 1, 2 and 32 entries.
fn within_counted<R: Threads + Abort + Sync, C: Ledger>(
    rt: &R,
    alloc: Global,
    blank: Blank,
) -> (bool, bool, bool)
    requires { IsFresh C.name C.parts blank }
{
    let mut steps = Steps::<C>::start(blank);
    let one = within_in::<R, 1, C>(rt, alloc, &mut steps);
    let two = within_in::<R, 2, C>(rt, alloc, &mut steps);
    let many = within_in::<R, 32, C>(rt, alloc, &mut steps);
    (one, two, many)
}

fn within<R: Threads + Abort + Sync>(rt: &R, alloc: Global) -> (bool, bool, bool) {
    within_counted::<R, Brand>(rt, alloc, Blank::new(1))
}

#[test]
fn comparisons_keep_within_the_bounds(rt: HostRuntime) {
    assert_eq!(rt; within(&rt, rt.alloc()), (true, true, true));
}
