//! Each augmented value and each leaf in a map.

ghost use Rattle.aug_monoid.specs.Fresh.{IsFresh};

use super::markers::Plain;
use aug_monoid::{MaxRight, Nothing, Pair, Pair64, Share, Steps, SumMax, Totals};
use diff_leaf::DiffLeaf;
use leaf_blocks::PlainLeaf;
use std::alloc::Global;
use std::marker::Brand;
use std::process::Abort;
use std::sync::ledger::{Blank, Ledger};
use tree_entry::{del, get, put, single};
use tree_shape::{Of, Shape, Tree};

/// The size of a map of two entries without the first, its fold, and the value at its key.
#[derive(Drop)]
struct Left<M: Shape> {
    size: u64,
    fold: Option<M::Aug>,
    val: Option<M::Val>,
}

fn fold_of<R: Abort, M: Shape>(rt: &R, alloc: Global, tree: &Tree<M>) -> Option<M::Aug> {
    let fold = tree.aug()?;
    Some(fold.share(alloc).expect(rt, "memory"))
}

fn left_counted<R: Abort, M: Shape, C: Ledger>(
    rt: &R,
    alloc: Global,
    first: (M::Key, M::Val),
    second: (M::Key, M::Val),
    blank: Blank,
) -> Left<M>
    requires { IsFresh C.name C.parts blank }
{
    let mut steps = Steps::<C>::start(blank);
    let early = first.0.share(alloc).expect(rt, "memory");
    let late = second.0.share(alloc).expect(rt, "memory");
    let one: Tree<M> = single(alloc, early, first.1).expect(rt, "memory");
    let two = put(alloc, &one, late, second.1, &mut steps).expect(rt, "memory");
    let left = del(alloc, &two, &first.0, &mut steps).expect(rt, "memory");
    let left = left.share(alloc).expect(rt, "memory");
    let val = get(alloc, &left, &second.0, &mut steps).expect(rt, "memory");
    Left {
        size: left.size(),
        fold: fold_of(rt, alloc, &left),
        val,
    }
}

fn left_of_two<R: Abort, M: Shape>(
    rt: &R,
    alloc: Global,
    first: (M::Key, M::Val),
    second: (M::Key, M::Val),
) -> Left<M> {
    left_counted::<R, M, Brand>(rt, alloc, first, second, Blank::new(1))
}

const SUM_OF_80: Totals = Totals {
    sum: 80,
    greatest: 80,
};

#[test]
fn maps_with_sums(rt: HostRuntime) {
    let left = left_of_two::<HostRuntime, Plain<1>>(&rt, rt.alloc(), (7, 70), (8, 80));
    assert_eq!(rt; left.size, 1);
    assert_eq!(rt; left.fold, Some(SUM_OF_80));
    assert_eq!(rt; left.val, Some(80));
}

#[test]
fn maps_of_coded_leaves(rt: HostRuntime) {
    let left = left_of_two::<HostRuntime, Of<Nothing<u64, u64>, DiffLeaf<u64>, 32>>(
        &rt,
        rt.alloc(),
        (7, 70),
        (8, 80),
    );
    assert_eq!(rt; left.size, 1);
    assert_eq!(rt; left.val, Some(80));
}

#[test]
fn maps_of_coded_keys(rt: HostRuntime) {
    let left = left_of_two::<HostRuntime, Of<Nothing<u64, ()>, DiffLeaf<()>, 2>>(
        &rt,
        rt.alloc(),
        (7, ()),
        (8, ()),
    );
    assert_eq!(rt; left.val, Some(()));
}

#[test]
fn maps_of_intervals(rt: HostRuntime) {
    let wide = Pair64 {
        first: 1,
        second: 9,
    };
    let short = Pair64 {
        first: 2,
        second: 3,
    };
    let left = left_of_two::<HostRuntime, Of<MaxRight, PlainLeaf<Pair64, ()>, 2>>(
        &rt,
        rt.alloc(),
        (wide, ()),
        (short, ()),
    );
    assert_eq!(rt; left.fold, Some(Some(3)));
}

type Both = Pair<SumMax<u64>, Nothing<u64, u64>>;

#[test]
fn maps_with_two_folds(rt: HostRuntime) {
    let left = left_of_two::<HostRuntime, Of<Both, PlainLeaf<u64, u64>, 128>>(
        &rt,
        rt.alloc(),
        (7, 70),
        (8, 80),
    );
    assert_eq!(rt; left.fold, Some((SUM_OF_80, ())));
}
