//! Single entries put, removed, taken apart and joined.
ghost use Rattle.std.specs.Prelude.{◌≡◌};
ghost use Rattle.std.specs.Ordering.{nat_cmp};
ghost use Rattle.map_model.specs.Entries.{above, below};
ghost use Rattle.aug_monoid.specs.Fresh.{IsFresh};

use super::sums::{Sums, assert_has, assert_made, map_of};
use aug_map::{Map, Parts};
use aug_monoid::{Leaf, LeafMut, SatSum, Share, Steps, SumMax};
use diff_leaf::DiffLeaf;
use leaf_blocks::PlainLeaf;
use std::alloc::Global;
use std::marker::Brand;
use std::process::Abort;
use std::sync::ledger::{Blank, Ledger};

const ENTRIES: [(u64, u64); 4] = [(6, 60), (2, 20), (8, 80), (4, 40)];

const FOUR: &[(u64, u64)] = &[(2, 20), (4, 40), (6, 60), (8, 80)];

const WITH_44: &[(u64, u64)] = &[(2, 20), (4, 44), (6, 60), (8, 80)];

const WITHOUT_2: &[(u64, u64)] = &[(4, 40), (6, 60), (8, 80)];

/// Asserts what a share of the map is, the map with another value at a key, and the map without a key.
fn assert_changed<R: Abort, L: Leaf<u64, u64>, const B: usize, C: Ledger>(
    rt: &R,
    alloc: Global,
    map: &Sums<L, B>,
    steps: &mut Steps<C>,
) {
    assert_made(rt, alloc, map.share(alloc), FOUR);
    assert_made(rt, alloc, map.put(alloc, 4, 44, steps), WITH_44);
    assert_made(rt, alloc, map.del(alloc, &2, steps), WITHOUT_2);
}

const IN_PLACE: &[(u64, u64)] = &[(4, 45), (5, 50), (6, 60), (8, 80)];

/// Asserts what a share of the map is after a put, a removal and a put onto a value, all in place, and that the map stays.
fn assert_changed_in_place<R: Abort, L: LeafMut<u64, u64>, const B: usize, C: Ledger>(
    rt: &R,
    alloc: Global,
    map: &Sums<L, B>,
    steps: &mut Steps<C>,
) {
    let mut share = map.share(alloc).expect(rt, "memory");
    share.put_mut(alloc, 5, 50, steps).expect(rt, "memory");
    share.del_mut(alloc, &2, steps).expect(rt, "memory");
    share
        .put_with(alloc, 4, 5, &SatSum, steps)
        .expect(rt, "memory");
    assert_has(rt, alloc, &share, IN_PLACE);
    assert_has(rt, alloc, map, FOUR);
}

/// Asserts what the sides of the entry at the top are.
fn assert_exposed<R: Abort, L: Leaf<u64, u64>, const B: usize>(
    rt: &R,
    alloc: Global,
    map: &Sums<L, B>,
) {
    let sides = map.expose(alloc).expect(rt, "memory");
    let sides = sides.expect(rt, "an entry");
    assert_has(rt, alloc, &sides.left, &[(2, 20)]);
    assert_has(rt, alloc, &sides.right, &[(6, 60), (8, 80)]);
}

const WITH_45: &[(u64, u64)] = &[(2, 20), (4, 45), (6, 60), (8, 80)];

const WITHOUT_4: &[(u64, u64)] = &[(2, 20), (6, 60), (8, 80)];

/// Asserts what the map united with the map of one entry is, and the map without the key of that entry.
fn assert_united<R: Abort, L: Leaf<u64, u64>, const B: usize>(
    rt: &R,
    alloc: Global,
    map: &Sums<L, B>,
) {
    let other: Sums<L, B> = Map::single(alloc, 4, 5).expect(rt, "memory");
    assert_made(rt, alloc, map.union_alone(alloc, &other, &SatSum), WITH_45);
    assert_made(rt, alloc, map.difference_alone(alloc, &other), WITHOUT_4);
}

/// The parts of a map around a key.
fn parts_at<R: Abort, L: Leaf<u64, u64>, const B: usize, C: Ledger>(
    rt: &R,
    alloc: Global,
    map: &Sums<L, B>,
    key: u64,
    steps: &mut Steps<C>,
) -> Parts<SumMax<u64>, L, B>
    ensures below { result.below.entries ≡ below nat_cmp map.now.entries key }
    ensures above { result.above.entries ≡ above nat_cmp map.now.entries key }
{
    map.split(alloc, &key, steps).expect(rt, "memory")
}

const TOGETHER: &[(u64, u64)] = &[(2, 20), (4, 40), (6, 61), (8, 80)];

const CLOSED: &[(u64, u64)] = &[(2, 20), (4, 40), (8, 80)];

/// Asserts what the map's parts around a key are, which has to be 6, and what they are when joined around it with the value 61, and
/// without it.
fn assert_joined<R: Abort, L: Leaf<u64, u64>, const B: usize, C: Ledger>(
    rt: &R,
    alloc: Global,
    map: &Sums<L, B>,
    key: u64,
    steps: &mut Steps<C>,
) {
    let parts = parts_at(rt, alloc, map, key, steps);
    assert_has(rt, alloc, &parts.below, &[(2, 20), (4, 40)]);
    assert_has(rt, alloc, &parts.above, &[(8, 80)]);
    let around = Map::join(alloc, &parts.below, key, 61, &parts.above, steps);
    assert_made(rt, alloc, around, TOGETHER);
    let closed = Map::join2(alloc, &parts.below, &parts.above, steps);
    assert_made(rt, alloc, closed, CLOSED);
}

/// Asserts that each call on the map of four entries gives what it should.
fn assert_all_in<R: Abort, L: LeafMut<u64, u64>, const B: usize, C: Ledger>(
    rt: &R,
    alloc: Global,
    steps: &mut Steps<C>,
) {
    let map: Sums<L, B> = map_of(rt, alloc, &ENTRIES, steps);
    assert_changed(rt, alloc, &map, steps);
    assert_changed_in_place(rt, alloc, &map, steps);
    assert_exposed(rt, alloc, &map);
    assert_united(rt, alloc, &map);
    assert_joined(rt, alloc, &map, 6, steps);
}

/// The same for blocks of 2 and of 32 entries.
fn assert_all_counted<R: Abort, L: LeafMut<u64, u64>, C: Ledger>(
    rt: &R,
    alloc: Global,
    blank: Blank,
)
    requires { IsFresh C.name C.parts blank }
{
    let mut steps = Steps::<C>::start(blank);
    assert_all_in::<R, L, 2, C>(rt, alloc, &mut steps);
    assert_all_in::<R, L, 32, C>(rt, alloc, &mut steps);
}

fn assert_all<R: Abort, L: LeafMut<u64, u64>>(rt: &R, alloc: Global) {
    assert_all_counted::<R, L, Brand>(rt, alloc, Blank::new(1));
}

#[test]
fn one_entry_at_a_time(rt: HostRuntime) {
    assert_all::<HostRuntime, PlainLeaf<u64, u64>>(&rt, rt.alloc());
    assert_all::<HostRuntime, DiffLeaf<u64>>(&rt, rt.alloc());
}

type Told = (u64, u32, u64, Option<u64>);

/// What a map tells: its size, its height, the sum of its values, and the value at a key.
fn told_counted<R: Abort, L: Leaf<u64, u64>, C: Ledger>(rt: &R, alloc: Global, blank: Blank) -> Told
    requires { IsFresh C.name C.parts blank }
{
    let mut steps = Steps::<C>::start(blank);
    let map: Sums<L, 1> = map_of(rt, alloc, &ENTRIES, &mut steps);
    let sum = map.aug().expect(rt, "a fold").sum;
    let found = map.get(alloc, &8, &mut steps).expect(rt, "memory");
    (map.size(), map.height(), sum, found)
}

fn told<R: Abort, L: Leaf<u64, u64>>(rt: &R, alloc: Global) -> Told {
    told_counted::<R, L, Brand>(rt, alloc, Blank::new(1))
}

#[test]
fn what_a_map_tells(rt: HostRuntime) {
    let plain = told::<HostRuntime, PlainLeaf<u64, u64>>(&rt, rt.alloc());
    assert_eq!(rt; plain, (4, 1, 200, Some(80)));
    let coded = told::<HostRuntime, DiffLeaf<u64>>(&rt, rt.alloc());
    assert_eq!(rt; coded, (4, 1, 200, Some(80)));
}
