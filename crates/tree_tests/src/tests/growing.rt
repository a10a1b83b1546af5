//! Maps that grow and shrink by single keys. Where memory is refused, a test ends here.
ghost use Rattle.std.specs.Prelude.{◌≡◌};
ghost use Rattle.map_model.specs.Entries.{above, below};
ghost use Rattle.aug_monoid.specs.Fresh.{IsFresh};

use super::markers::Plain;
use aug_monoid::Steps;
use std::alloc::Global;
use std::marker::Brand;
use std::process::Abort;
use std::sync::ledger::{Blank, Ledger};
use tree_cut::{Parts, split};
use tree_entry::{del, put};
use tree_shape::{Shape, Tree};

/// The entries of a map.
pub(crate) fn listed<R: Abort, M: Shape>(
    rt: &R,
    alloc: Global,
    tree: &Tree<M>,
) -> Vec<(M::Key, M::Val)> {
    let mut entries = Vec::new(alloc);
    tree.push_entries(alloc, &mut entries).expect(rt, "memory");
    entries
}

/// The parts of a map around a key.
pub(crate) fn parted<R: Abort, M: Shape, C: Ledger>(
    rt: &R,
    alloc: Global,
    tree: &Tree<M>,
    key: &M::Key,
    steps: &mut Steps<C>,
) -> Parts<M>
    ensures below { result.below.entries ≡ below M.Key.cmp tree.now.entries key.now }
    ensures above { result.above.entries ≡ above M.Key.cmp tree.now.entries key.now }
{
    split(alloc, tree, key, steps).expect(rt, "memory")
}

/// The keys from 1 to below a number, put in rising order, each with itself as value.
pub(crate) fn rising<R: Abort, M: Shape<Key = u64, Val = u64>, C: Ledger>(
    rt: &R,
    alloc: Global,
    end: u64,
    steps: &mut Steps<C>,
) -> Tree<M> {
    let mut tree: Tree<M> = Tree::empty();
    for key in 1..end {
        tree = put(alloc, &tree, key, key, steps).expect(rt, "memory");
    }
    tree
}

/// The heights of a map, while the keys from 1 to 9 are put in rising order.
fn rising_heights<R: Abort, M: Shape<Key = u64, Val = u64>, C: Ledger>(
    rt: &R,
    alloc: Global,
    steps: &mut Steps<C>,
) -> (Tree<M>, Vec<u32>) {
    let mut tree: Tree<M> = Tree::empty();
    let mut heights = Vec::new(alloc);
    for key in 1..10 {
        tree = put(alloc, &tree, key, key, steps).expect(rt, "memory");
        heights.push(tree.height()).expect(rt, "memory");
    }
    (tree, heights)
}

/// The heights of a map, while the keys from 9 to 1 are taken away in falling order.
fn falling_heights<R: Abort, M: Shape<Key = u64, Val = u64>, C: Ledger>(
    rt: &R,
    alloc: Global,
    tree: Tree<M>,
    steps: &mut Steps<C>,
) -> Vec<u32> {
    let mut tree = tree;
    let mut heights = Vec::new(alloc);
    for key in (1..10).rev() {
        tree = del(alloc, &tree, &key, steps).expect(rt, "memory");
        heights.push(tree.height()).expect(rt, "memory");
    }
    heights
}

fn heights_counted<R: Abort, M: Shape<Key = u64, Val = u64>, C: Ledger>(
    rt: &R,
    alloc: Global,
    blank: Blank,
) -> (Vec<u32>, Vec<u32>)
    requires { IsFresh C.name C.parts blank }
{
    let mut steps = Steps::<C>::start(blank);
    let (tree, up) = rising_heights::<R, M, C>(rt, alloc, &mut steps);
    (up, falling_heights(rt, alloc, tree, &mut steps))
}

fn heights<R: Abort, M: Shape<Key = u64, Val = u64>>(
    rt: &R,
    alloc: Global,
) -> (Vec<u32>, Vec<u32>) {
    heights_counted::<R, M, Brand>(rt, alloc, Blank::new(1))
}

#[test]
fn nine_keys_in_blocks_of_two(rt: HostRuntime) {
    let (up, down) = heights::<HostRuntime, Plain<2>>(&rt, rt.alloc());
    assert_eq!(rt; up.as_slice(), [0, 0, 0, 0, 1, 1, 1, 1, 2].as_slice());
    assert_eq!(rt; down.as_slice(), [1, 1, 1, 1, 0, 0, 0, 0, 0].as_slice());
}
