//! What changes of one entry take.
ghost use Rattle.map_model.specs.Balance.{IsBlockSize};
ghost use Rattle.aug_monoid.specs.Fresh.{IsFresh};

use crate::counted::Counted;
use crate::sums::Sums;
use crate::work::{Taken, Work};
use aug_map::Map;
use aug_monoid::{LeafMut, Steps};
use leaf_blocks::PlainLeaf;
use std::alloc::Global;
use std::marker::Brand;
use std::process::Abort;
use std::sync::ledger::{Blank, Ledger};

/// The blocks of the maps.
pub(crate) type Block<'a> = PlainLeaf<Counted<'a>, u64>;

/// How many entries the maps have.
pub(crate) const ENTRIES: u64 = 4096;

/// The map of the even numbers below `2 * ENTRIES`, each with itself as value, put in place.
pub(crate) fn evens<'a, R: Abort, L: LeafMut<Counted<'a>, u64>, const B: usize, C: Ledger>(
    rt: &R,
    alloc: Global,
    work: &'a Work,
    steps: &mut Steps<C>,
) -> Map<Sums<'a>, L, B> {
    let mut map: Map<Sums<'a>, L, B> = Map::empty();
    for half in 0..ENTRIES {
        map.put_mut(alloc, Counted::new(2 * half, work), 2 * half, steps)
            .expect(rt, "put");
    }
    map
}

/// The most that a put or a removal takes by a copy, at odd and at even keys.
fn most_by_copy<'a, R: Abort, L: LeafMut<Counted<'a>, u64>, const B: usize, C: Ledger>(
    rt: &R,
    alloc: Global,
    map: &Map<Sums<'a>, L, B>,
    work: &'a Work,
    steps: &mut Steps<C>,
) -> Taken {
    let mut most = Taken {
        compared: 0,
        shared: 0,
        combined: 0,
    };
    for number in [0, 1, 77, 1_024, 4_095, 4_096, 8_190, 9_000] {
        work.take();
        map.put(alloc, Counted::new(number, work), 5, steps)
            .expect(rt, "put");
        most = most.max(work.take());
        map.del(alloc, &Counted::new(number, work), steps)
            .expect(rt, "removal");
        most = most.max(work.take());
    }
    most
}

/// Whether changes by a copy keep within their bounds, and what `ENTRIES` puts in place of keys that are there share.
fn changes_in<'a, R: Abort, L: LeafMut<Counted<'a>, u64>, const B: usize, C: Ledger>(
    rt: &R,
    alloc: Global,
    work: &'a Work,
    steps: &mut Steps<C>,
) -> (bool, u64)
    requires { IsBlockSize B }
{
    let mut map = evens::<R, L, B, C>(rt, alloc, work, steps);
    let most = most_by_copy(rt, alloc, &map, work, steps);
    let levels = map.height() as u64 + 1;
    let block = B as u64 + 2;
    let is_within = most.compared <= levels + 18
        && most.combined <= levels.saturating_mul(64 * block);
    work.take();
    for half in 0..ENTRIES {
        map.put_mut(alloc, Counted::new(2 * half, work), half, steps)
            .expect(rt, "put");
    }
    (is_within, work.take().shared)
}

/// The same for blocks of 1, 2 and 32 entries.
fn changes_at_sizes<'a, R: Abort, L: LeafMut<Counted<'a>, u64>, C: Ledger>(
    rt: &R,
    alloc: Global,
    work: &'a Work,
    steps: &mut Steps<C>,
) -> [(bool, u64); 3] {
    let one = changes_in::<R, L, 1, C>(rt, alloc, work, steps);
    let two = changes_in::<R, L, 2, C>(rt, alloc, work, steps);
    let many = changes_in::<R, L, 32, C>(rt, alloc, work, steps);
    [one, two, many]
}

fn changes_counted<R: Abort, C: Ledger>(rt: &R, alloc: Global, blank: Blank) -> [(bool, u64); 3]
    requires { IsFresh C.name C.parts blank }
{
    let mut steps = Steps::<C>::start(blank);
    let work = Work::new();
    changes_at_sizes::<R, Block<'_>, C>(rt, alloc, &work, &mut steps)
}

fn changes<R: Abort>(rt: &R, alloc: Global) -> [(bool, u64); 3] {
    changes_counted::<R, Brand>(rt, alloc, Blank::new(1))
}

// A put of a key that is there copies nothing, also where a block is one entry.
#[test]
fn changes_take_one_path_and_puts_in_place_copy_nothing(rt: HostRuntime) {
    assert_eq!(rt; changes(&rt, rt.alloc()), [(true, 0); 3]);
}

/// The most combinations that a put in place of a new key takes, one into each of 63 stretches of the keys (not into the last block,
/// which is full), and how many levels the map has.
fn taken_in<'a, R: Abort, L: LeafMut<Counted<'a>, u64>, C: Ledger>(
    rt: &R,
    alloc: Global,
    work: &'a Work,
    steps: &mut Steps<C>,
) -> (u64, u64) {
    let mut map = evens::<R, L, 32, C>(rt, alloc, work, steps);
    let mut most = 0;
    for stretch in 0..63 {
        work.take();
        map.put_mut(alloc, Counted::new(128 * stretch + 65, work), 1, steps)
            .expect(rt, "put");
        most = most.max(work.take().combined);
    }
    (most, map.height() as u64 + 1)
}

fn taken_in_counted<R: Abort, C: Ledger>(rt: &R, alloc: Global, blank: Blank) -> (u64, u64)
    requires { IsFresh C.name C.parts blank }
{
    let mut steps = Steps::<C>::start(blank);
    let work = Work::new();
    taken_in::<R, Block<'_>, C>(rt, alloc, &work, &mut steps)
}

fn new_keys<R: Abort>(rt: &R, alloc: Global) -> (u64, u64) {
    taken_in_counted::<R, Brand>(rt, alloc, Blank::new(1))
}

// Sums commute, so the fold of each node on the way, and of the block, takes in the new entry as it is.
#[test]
fn a_put_in_place_of_a_new_key_takes_one_combination_a_level(rt: HostRuntime) {
    let (most, levels) = new_keys(&rt, rt.alloc());
    assert_eq!(rt; most, levels);
}
