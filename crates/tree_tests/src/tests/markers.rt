//! A shape of a test's own, block sizes out of range, and trees that cross threads.

ghost use Rattle.aug_monoid.specs.Fresh.{IsFresh};

use super::growing::rising;
use aug_monoid::{Steps, SumMax, Totals, crosses};
use diff_leaf::DiffLeaf;
use leaf_blocks::PlainLeaf;
use std::alloc::Global;
use std::marker::Brand;
use std::process::Abort;
use std::sync::ledger::{Blank, Ledger};
use tree_entry::put;
use tree_shape::{Of, Shape, SyncShape, Tree, lawful_block};

/// The shape of sums in plain blocks of four to eight entries.
#[derive(Drop)]
pub(crate) struct Fours;

impl Shape for Fours {
    type Key = u64;

    type Val = u64;

    type Aug = Totals;

    type Augment = SumMax<u64>;

    type Leaf = PlainLeaf<u64, u64>;

    const BLOCK: usize = 4;

    ghost BLOCK = { 4 };

    ghost use Rattle.std.proofs.Common.{arith};

    ghost lawful = { (Prim.omega arith, Prim.omega arith) };
}

/// The heights of the map of the keys from 1 to below a number, and of that map with the number too, and the size of a block.
fn edge_counted<R: Abort, M: Shape<Key = u64, Val = u64>, C: Ledger>(
    rt: &R,
    alloc: Global,
    end: u64,
    blank: Blank,
) -> (u32, u32, u64)
    requires { IsFresh C.name C.parts blank }
{
    let mut steps = Steps::<C>::start(blank);
    let block: Tree<M> = rising(rt, alloc, end, &mut steps);
    let node = put(alloc, &block, end, end, &mut steps).expect(rt, "memory");
    (block.height(), node.height(), block.block_size())
}

fn edge<R: Abort, M: Shape<Key = u64, Val = u64>>(
    rt: &R,
    alloc: Global,
    end: u64,
) -> (u32, u32, u64) {
    edge_counted::<R, M, Brand>(rt, alloc, end, Blank::new(1))
}

pub(crate) type Plain<const B: usize> = Of<SumMax<u64>, PlainLeaf<u64, u64>, B>;

pub(crate) type Coded<const B: usize> = Of<SumMax<u64>, DiffLeaf<u64>, B>;

#[test]
fn a_block_holds_twice_its_size(rt: HostRuntime) {
    assert_eq!(rt;
        edge::<HostRuntime, Plain<1>>(&rt, rt.alloc(), 3),
        (0, 1, 1)
    );
    assert_eq!(rt;
        edge::<HostRuntime, Plain<2>>(&rt, rt.alloc(), 5),
        (0, 1, 2)
    );
    assert_eq!(rt; edge::<HostRuntime, Fours>(&rt, rt.alloc(), 9), (0, 1, 4));
    assert_eq!(rt;
        edge::<HostRuntime, Coded<32>>(&rt, rt.alloc(), 65),
        (0, 1, 32)
    );
}

#[test]
fn sizes_out_of_range_are_the_nearest(rt: HostRuntime) {
    assert_eq!(rt; lawful_block(0), 1);
    assert_eq!(rt; lawful_block(200), 128);
    assert_eq!(rt;
        edge::<HostRuntime, Plain<0>>(&rt, rt.alloc(), 3),
        (0, 1, 1)
    );
    assert_eq!(rt;
        edge::<HostRuntime, Plain<200>>(&rt, rt.alloc(), 257),
        (0, 1, 128)
    );
}

/// It does nothing, and is there for the proof that a tree is sent to and shared among threads.
fn tree_crosses<M: SyncShape>(tree: &Tree<M>) {
    crosses(tree);
}

#[test]
fn trees_cross_threads(_rt: HostRuntime) {
    tree_crosses::<Plain<2>>(&Tree::empty());
    tree_crosses::<Coded<32>>(&Tree::empty());
    tree_crosses::<Fours>(&Tree::empty());
}
