//! Large maps joined with small ones.

ghost use Rattle.aug_monoid.specs.Fresh.{IsFresh};

use super::growing::{parted, rising};
use super::markers::Plain;
use aug_monoid::{Steps, Totals};
use std::alloc::Global;
use std::marker::Brand;
use std::process::Abort;
use std::sync::ledger::{Blank, Ledger};
use tree_join::{join, join2};
use tree_shape::{Shape, Tree};

/// A map's size, the sum of its values, and its height.
type Outline = (u64, u64, u32);

fn outline<M: Shape<Key = u64, Val = u64, Aug = Totals>>(tree: &Tree<M>) -> Outline {
    let sum = match tree.aug() {
        Some(totals) => totals.sum,
        None => 0,
    };
    (tree.size(), sum, tree.height())
}

/// The outlines of the two parts of a map around a key, of the parts joined with the key between them, and of the parts
/// joined without it.
#[derive(Clone, Copy)]
struct Joins {
    below: Outline,
    above: Outline,
    whole: Outline,
    closed: Outline,
}

fn joined_around<R: Abort, M: Shape<Key = u64, Val = u64, Aug = Totals>, C: Ledger>(
    rt: &R,
    alloc: Global,
    tree: &Tree<M>,
    key: u64,
    steps: &mut Steps<C>,
) -> Joins {
    let parts = parted(rt, alloc, tree, &key, steps);
    let whole = join(alloc, &parts.below, key, key, &parts.above, steps).expect(rt, "memory");
    let closed = join2(alloc, &parts.below, &parts.above, steps).expect(rt, "memory");
    Joins {
        below: outline(&parts.below),
        above: outline(&parts.above),
        whole: outline(&whole),
        closed: outline(&closed),
    }
}

/// The outlines around the second key and around the last but one, of the map of the keys from 1 to 100002.
fn around_counted<R: Abort, M: Shape<Key = u64, Val = u64, Aug = Totals>, C: Ledger>(
    rt: &R,
    alloc: Global,
    blank: Blank,
) -> (Joins, Joins)
    requires { IsFresh C.name C.parts blank }
{
    let mut steps = Steps::<C>::start(blank);
    let tree: Tree<M> = rising(rt, alloc, 100003, &mut steps);
    let low = joined_around(rt, alloc, &tree, 2, &mut steps);
    let high = joined_around(rt, alloc, &tree, 100001, &mut steps);
    (low, high)
}

/// Whether a map has a size, a sum of its values, and at most a height.
fn is_outline(outline: Outline, size: u64, sum: u64, height: u32) -> bool {
    let (all, total, top) = outline;
    (all, total) == (size, sum) && top <= height
}

/// Whether a map of one entry and a map of 100000 were joined both ways, into maps of at most a height.
fn joined_within<R: Abort, M: Shape<Key = u64, Val = u64, Aug = Totals>>(
    rt: &R,
    alloc: Global,
    height: u32,
) -> bool {
    let (low, high) = around_counted::<R, M, Brand>(rt, alloc, Blank::new(1));
    low_within(low, height) && high_within(high, height)
}

fn low_within(joins: Joins, height: u32) -> bool {
    is_outline(joins.below, 1, 1, 0)
        && is_outline(joins.above, 100000, 5000250000, height)
        && is_outline(joins.whole, 100002, 5000250003, height)
        && is_outline(joins.closed, 100001, 5000250001, height)
}

fn high_within(joins: Joins, height: u32) -> bool {
    is_outline(joins.below, 100000, 5000050000, height)
        && is_outline(joins.above, 1, 100002, 0)
        && is_outline(joins.whole, 100002, 5000250003, height)
        && is_outline(joins.closed, 100001, 5000150002, height)
}

#[test]
fn one_entry_and_many_in_blocks_of_one(rt: HostRuntime) {
    assert!(rt; joined_within::<HostRuntime, Plain<1>>(&rt, rt.alloc(), 37));
}

#[test]
fn one_entry_and_many_in_blocks_of_two(rt: HostRuntime) {
    assert!(rt; joined_within::<HostRuntime, Plain<2>>(&rt, rt.alloc(), 36));
}

#[test]
fn one_entry_and_many_in_blocks_of_32(rt: HostRuntime) {
    assert!(rt; joined_within::<HostRuntime, Plain<32>>(&rt, rt.alloc(), 27));
}
