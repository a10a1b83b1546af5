//! Maps taken apart and made again, by each call that the other tests do not make.
ghost use Rattle.std.specs.Prelude.{◌≤◌, ◌*◌, ◌∷◌, ◌++◌, length};
ghost use Rattle.map_model.specs.Balance.{IsBalanced, weight};
ghost use Rattle.map_model.specs.Entries.{IsIncreasing};
ghost use Rattle.aug_monoid.specs.Fresh.{IsFresh};

use super::growing::rising;
use super::markers::{Coded, Fours, Plain};
use aug_monoid::{Leaf, Steps, Totals};
use std::alloc::Global;
use std::marker::Brand;
use std::process::Abort;
use std::sync::ledger::{Blank, Ledger};
use tree_cut::{Exposed, expose};
use tree_entry::put_sought;
use tree_join::{another_owner, join_lent, join_owned};
use tree_make::{entries_of, join_around, joined, tree_of, tree_of_slice};
use tree_shape::{Look, Shape, Tree, cut_around, fold_leaf};

/// The entry at the top of a map that has one, with its two sides.
fn opened<R: Abort, M: Shape>(rt: &R, alloc: Global, tree: &Tree<M>) -> Exposed<M>
    ensures increasing { IsIncreasing M.Key.cmp (result.left.entries ++ (result.key, result.val) ∷ result.right.entries) }
    ensures balanced { IsBalanced (weight result.left.entries) (weight result.right.entries) }
{
    let _size = tree.size(); // for the proof alone: keys rise
    let sides = expose(alloc, tree).expect(rt, "memory");
    sides.expect(rt, "an entry")
}

fn by_joined<R: Abort, M: Shape>(rt: &R, alloc: Global, tree: &Tree<M>) -> Tree<M> {
    let sides = opened(rt, alloc, tree);
    joined(alloc, sides.left, (sides.key, sides.val), sides.right).expect(rt, "memory")
}

fn by_join_around<R: Abort, M: Shape>(rt: &R, alloc: Global, tree: &Tree<M>) -> Tree<M> {
    let sides = opened(rt, alloc, tree);
    let middle = Some((sides.key, sides.val));
    join_around(alloc, sides.left, middle, sides.right).expect(rt, "memory")
}

fn by_join_lent<R: Abort, M: Shape, C: Ledger>(
    rt: &R,
    alloc: Global,
    tree: &Tree<M>,
    steps: &mut Steps<C>,
) -> Tree<M> {
    let sides = opened(rt, alloc, tree);
    let whole = join_lent(
        alloc,
        &sides.left,
        &sides.key,
        &sides.val,
        &sides.right,
        steps,
    );
    whole.expect(rt, "memory")
}

fn by_join_owned<R: Abort, M: Shape, C: Ledger>(
    rt: &R,
    alloc: Global,
    tree: &Tree<M>,
    steps: &mut Steps<C>,
) -> Tree<M> {
    let sides = opened(rt, alloc, tree);
    join_owned(alloc, sides.left, sides.key, sides.val, sides.right, steps).expect(rt, "memory")
}

fn by_link<R: Abort, M: Shape, C: Ledger>(
    rt: &R,
    alloc: Global,
    tree: &Tree<M>,
    steps: &mut Steps<C>,
) -> Tree<M> {
    let Exposed {
        left,
        key,
        val,
        right,
    } = opened(rt, alloc, tree);
    Tree::link(alloc, &left, key, val, &right, steps).expect(rt, "memory")
}

/// The map linked of its sides where a node stands over them, and by `link` where none does.
fn by_link_owned<R: Abort, M: Shape, C: Ledger>(
    rt: &R,
    alloc: Global,
    tree: &Tree<M>,
    steps: &mut Steps<C>,
) -> Tree<M> {
    let Exposed {
        left,
        key,
        val,
        right,
    } = opened(rt, alloc, tree);
    let whole = if Tree::fill_node(&left, &right) {
        Tree::link_owned(alloc, left, key, val, right, steps)
    } else {
        Tree::link(alloc, &left, key, val, &right, steps)
    };
    whole.expect(rt, "memory")
}

fn by_entries<R: Abort, M: Shape>(rt: &R, alloc: Global, tree: &Tree<M>) -> Tree<M> {
    let _size = tree.size(); // for the proof alone: keys rise
    let entries = entries_of(alloc, tree).expect(rt, "memory");
    tree_of(alloc, entries).expect(rt, "memory")
}

fn by_slice<R: Abort, M: Shape>(rt: &R, alloc: Global, tree: &Tree<M>) -> Tree<M> {
    let _size = tree.size(); // for the proof alone: keys rise
    let entries = entries_of(alloc, tree).expect(rt, "memory");
    tree_of_slice(alloc, entries.as_slice()).expect(rt, "memory")
}

/// The sum of a map's values by its fold, and by the folds of its sides and the entry between them.
fn sums<R: Abort, M: Shape<Aug = Totals>, C: Ledger>(
    rt: &R,
    alloc: Global,
    tree: &Tree<M>,
    steps: &mut Steps<C>,
) -> (u64, u64) {
    let sides = opened(rt, alloc, tree);
    let fold = Tree::fold_between(
        alloc,
        &sides.left,
        &sides.key,
        &sides.val,
        &sides.right,
        steps,
    );
    let whole = match tree.aug() {
        Some(totals) => totals.sum,
        None => 0,
    };
    (whole, fold.expect(rt, "memory").sum)
}

/// What is told of a map that is one block.
#[derive(Clone, Copy, Debug, Eq, PartialEq)]
struct Told {
    /// The sum of the values, by the leaf's fold.
    sum: u64,
    /// The first key.
    first: u64,
    /// How many entries the map of those behind the first has.
    behind: u64,
    /// How many the map with a further key has.
    more: u64,
}

fn tell<R: Abort, M: Shape<Key = u64, Val = u64, Aug = Totals>, C: Ledger>(
    rt: &R,
    alloc: Global,
    tree: &Tree<M>,
    key: u64,
    steps: &mut Steps<C>,
) -> Option<Told> {
    let Look::Block { leaf } = tree.look() else {
        return None;
    };
    let fold = fold_leaf::<M::Augment, M::Leaf, C>(alloc, leaf, steps).expect(rt, "memory");
    let place = leaf.seek(&key, steps);
    let more: Tree<M> = put_sought(alloc, leaf, place, key, key, steps).expect(rt, "memory");
    let parts = cut_around(alloc, leaf, 0).expect(rt, "memory");
    let _count = parts.back.len(); // for the proof alone: keys rise
    let behind: Tree<M> = Tree::from_leaf(alloc, parts.back, steps).expect(rt, "memory");
    Some(Told {
        sum: fold.sum,
        first: parts.key,
        behind: behind.size(),
        more: more.size(),
    })
}

fn assert_same<R: Abort, M: Shape<Key = u64, Val = u64>>(
    rt: &R,
    alloc: Global,
    tree: Tree<M>,
    wanted: &[(u64, u64)],
) {
    let entries = entries_of(alloc, &tree).expect(rt, "memory");
    assert_eq!(rt; entries.as_slice(), wanted);
}

fn assert_remade<R: Abort, M: Shape<Key = u64, Val = u64>, C: Ledger>(
    rt: &R,
    alloc: Global,
    tree: &Tree<M>,
    steps: &mut Steps<C>,
) {
    let entries = entries_of(alloc, tree).expect(rt, "memory");
    let wanted = entries.as_slice();
    assert_same(rt, alloc, by_entries(rt, alloc, tree), wanted);
    assert_same(rt, alloc, by_slice(rt, alloc, tree), wanted);
    assert_same(rt, alloc, by_joined(rt, alloc, tree), wanted);
    assert_same(rt, alloc, by_join_around(rt, alloc, tree), wanted);
    assert_same(rt, alloc, by_join_lent(rt, alloc, tree, steps), wanted);
    assert_same(rt, alloc, by_join_owned(rt, alloc, tree, steps), wanted);
    assert_same(rt, alloc, by_link(rt, alloc, tree, steps), wanted);
    assert_same(rt, alloc, by_link_owned(rt, alloc, tree, steps), wanted);
    assert_same(
        rt,
        alloc,
        another_owner(alloc, tree).expect(rt, "memory"),
        wanted,
    );
}

/// The two sums of the map of the keys from 1 to 19, and what is told of the map of the keys from 1 to 3.
fn made_counted<R: Abort, M: Shape<Key = u64, Val = u64, Aug = Totals>, C: Ledger>(
    rt: &R,
    alloc: Global,
    blank: Blank,
) -> ((u64, u64), Option<Told>)
    requires { IsFresh C.name C.parts blank }
{
    let mut steps = Steps::<C>::start(blank);
    let tree: Tree<M> = rising(rt, alloc, 20, &mut steps);
    assert_remade(rt, alloc, &tree, &mut steps);
    let few: Tree<M> = rising(rt, alloc, 4, &mut steps);
    let three = tell(rt, alloc, &few, 4, &mut steps);
    (sums(rt, alloc, &tree, &mut steps), three)
}

fn made<R: Abort, M: Shape<Key = u64, Val = u64, Aug = Totals>>(
    rt: &R,
    alloc: Global,
) -> ((u64, u64), Option<Told>) {
    made_counted::<R, M, Brand>(rt, alloc, Blank::new(1))
}

const THREE: Told = Told {
    sum: 6,
    first: 1,
    behind: 2,
    more: 4,
};

#[test]
fn plain_maps_are_made_again(rt: HostRuntime) {
    let wanted = ((190, 190), Some(THREE));
    assert_eq!(rt;
        made::<HostRuntime, Plain<1>>(&rt, rt.alloc()),
        ((190, 190), None)
    );
    assert_eq!(rt; made::<HostRuntime, Plain<2>>(&rt, rt.alloc()), wanted);
    assert_eq!(rt; made::<HostRuntime, Plain<32>>(&rt, rt.alloc()), wanted);
}

#[test]
fn coded_maps_are_made_again(rt: HostRuntime) {
    let wanted = ((190, 190), Some(THREE));
    assert_eq!(rt;
        made::<HostRuntime, Coded<1>>(&rt, rt.alloc()),
        ((190, 190), None)
    );
    assert_eq!(rt; made::<HostRuntime, Coded<2>>(&rt, rt.alloc()), wanted);
    assert_eq!(rt; made::<HostRuntime, Coded<32>>(&rt, rt.alloc()), wanted);
}

#[test]
fn maps_of_a_shape_of_its_own_are_made_again(rt: HostRuntime) {
    let wanted = ((190, 190), Some(THREE));
    assert_eq!(rt; made::<HostRuntime, Fours>(&rt, rt.alloc()), wanted);
}
