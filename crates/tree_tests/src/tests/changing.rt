//! Maps changed in place beside maps that are changed by copies.

ghost use Rattle.aug_monoid.specs.Fresh.{IsFresh};

use super::growing::listed;
use super::markers::{Coded, Fours, Plain};
use aug_monoid::{SatSum, Share, Steps};
use std::alloc::Global;
use std::marker::Brand;
use std::process::Abort;
use std::sync::ledger::{Blank, Ledger};
use tree_change::{ShapeMut, del_mut, insert_mut, put_mut, put_with};
use tree_entry::{del, get, put};
use tree_shape::{Shape, Tree};

/// The number after another one in a sequence that looks like chance.
fn next_number(number: u64) -> u64 {
    number
        .wrapping_mul(6364136223846793005)
        .wrapping_add(1442695040888963407)
}

/// Inserts into a map in place, and asserts that the answer is the value that a look-up finds before.
fn insert_seen<R: Abort, M: ShapeMut + Shape<Key = u64, Val = u64>, C: Ledger>(
    rt: &R,
    alloc: Global,
    own: &mut Tree<M>,
    key: u64,
    val: u64,
    steps: &mut Steps<C>,
) {
    let found = get(alloc, own, &key, steps).expect(rt, "memory");
    let old = insert_mut(alloc, own, key, val, steps).expect(rt, "memory");
    assert!(rt; old == found);
}

/// Changes a map in place at a key below 512 that a number gives, and answers another map with the same change: a removal
/// after one number in three, a put or an insert after the others.
fn change_both<R: Abort, M: ShapeMut + Shape<Key = u64, Val = u64>, C: Ledger>(
    rt: &R,
    alloc: Global,
    own: &mut Tree<M>,
    copied: Tree<M>,
    number: u64,
    steps: &mut Steps<C>,
) -> Tree<M> {
    let key = (number >> 33) % 512;
    let new = if (number >> 20) % 3 == 0 {
        del_mut(alloc, own, &key, steps).expect(rt, "memory");
        del(alloc, &copied, &key, steps)
    } else {
        if (number >> 19) % 2 == 0 {
            put_mut(alloc, own, key, number, steps).expect(rt, "memory");
        } else {
            insert_seen(rt, alloc, own, key, number, steps);
        }
        put(alloc, &copied, key, number, steps)
    };
    new.expect(rt, "memory")
}

/// A thousand changes of a map in place, and of another one by copies.
fn change_often<R: Abort, M: ShapeMut + Shape<Key = u64, Val = u64>, C: Ledger>(
    rt: &R,
    alloc: Global,
    own: &mut Tree<M>,
    copied: Tree<M>,
    seed: u64,
    steps: &mut Steps<C>,
) -> Tree<M> {
    let mut copied = copied;
    let mut number = seed;
    for _round in 0..1000 {
        number = next_number(number);
        copied = change_both(rt, alloc, own, copied, number, steps);
    }
    copied
}

/// Asserts that two maps have the same entries, which it answers.
fn same<R: Abort, M: ShapeMut + Shape<Key = u64, Val = u64>>(
    rt: &R,
    alloc: Global,
    own: &Tree<M>,
    copied: &Tree<M>,
) -> Vec<(u64, u64)> {
    let entries = listed(rt, alloc, own);
    assert_eq!(rt; entries.as_slice(), listed(rt, alloc, copied).as_slice());
    entries
}

/// Puts at a key that neither map has: twice in place, where the second value is added to the first, and once by a copy.
fn put_last<R: Abort, M: ShapeMut + Shape<Key = u64, Val = u64>, C: Ledger>(
    rt: &R,
    alloc: Global,
    own: &mut Tree<M>,
    copied: &Tree<M>,
    steps: &mut Steps<C>,
) -> Tree<M> {
    put_with(alloc, own, 512, 1, &SatSum, steps).expect(rt, "memory");
    put_with(alloc, own, 512, 2, &SatSum, steps).expect(rt, "memory");
    put(alloc, copied, 512, 3, steps).expect(rt, "memory")
}

/// Asserts that a map that is changed in place has the entries of one that is changed by copies, before and after it gets a
/// second owner, which keeps the entries that it had.
fn assert_agree_counted<R: Abort, M: ShapeMut + Shape<Key = u64, Val = u64>, C: Ledger>(
    rt: &R,
    alloc: Global,
    blank: Blank,
)
    requires { IsFresh C.name C.parts blank }
{
    let mut steps = Steps::<C>::start(blank);
    let mut own: Tree<M> = Tree::empty();
    let copied = change_often(rt, alloc, &mut own, Tree::empty(), 1, &mut steps);
    let before = same(rt, alloc, &own, &copied);
    let second = own.share(alloc).expect(rt, "memory");
    let copied = change_often(rt, alloc, &mut own, copied, 2, &mut steps);
    let copied = put_last(rt, alloc, &mut own, &copied, &mut steps);
    let after = same(rt, alloc, &own, &copied);
    assert_eq!(rt; listed(rt, alloc, &second).as_slice(), before.as_slice());
    assert!(rt; before != after);
}

fn assert_agree<R: Abort, M: ShapeMut + Shape<Key = u64, Val = u64>>(rt: &R, alloc: Global) {
    assert_agree_counted::<R, M, Brand>(rt, alloc, Blank::new(1));
}

#[test]
fn plain_maps_changed_in_place(rt: HostRuntime) {
    assert_agree::<HostRuntime, Plain<1>>(&rt, rt.alloc());
    assert_agree::<HostRuntime, Plain<2>>(&rt, rt.alloc());
    assert_agree::<HostRuntime, Plain<32>>(&rt, rt.alloc());
}

#[test]
fn coded_maps_changed_in_place(rt: HostRuntime) {
    assert_agree::<HostRuntime, Coded<32>>(&rt, rt.alloc());
}

#[test]
fn maps_of_a_shape_of_its_own_changed_in_place(rt: HostRuntime) {
    assert_agree::<HostRuntime, Fours>(&rt, rt.alloc());
}
