//! Keys whose shares are refused, and an augmented value whose combination may be.
ghost use Rattle.std.specs.Prelude.{◌+◌, IfOk, IsOk};
ghost use Rattle.std.proofs.Common.{arith};
ghost use Rattle.aug_monoid.specs.Fresh.{IsFresh};

use super::growing::{listed, parted};
use super::probe::{Probe, ProbeKey};
use super::watching::{Watched, rising_watched};
use aug_monoid::{Augment, NoMemory, Steps};
use leaf_blocks::PlainLeaf;
use std::alloc::Global;
use std::marker::Brand;
use std::process::Abort;
use std::sync::Arc;
use std::sync::ledger::{Blank, Ledger};
use tree_cut::{expose, split};
use tree_entry::{del, get, put};
use tree_join::{join, join2};
use tree_shape::{Of, Shape, Tree};

/// Which of `get`, `put` and `del` are refused where shares of keys are: `get` shares no key.
fn refused_points<R: Abort, M: Shape<Key = ProbeKey, Val = u64>, C: Ledger>(
    rt: &R,
    alloc: Global,
    probe: &Arc<Probe>,
    tree: &Tree<M>,
    steps: &mut Steps<C>,
) -> (bool, bool, bool) {
    let first = ProbeKey::made(rt, 1, probe);
    let last = ProbeKey::made(rt, 10, probe);
    probe.refuse(true);
    let got = get(alloc, tree, &first, steps).is_err();
    let put = put(alloc, tree, last, 10, steps).is_err();
    let deleted = del(alloc, tree, &first, steps).is_err();
    probe.refuse(false);
    (got, put, deleted)
}

/// Which of `join` and `join2` are refused where shares are.
fn refused_joins<R: Abort, M: Shape<Key = ProbeKey, Val = u64>, C: Ledger>(
    rt: &R,
    alloc: Global,
    probe: &Arc<Probe>,
    tree: &Tree<M>,
    steps: &mut Steps<C>,
) -> (bool, bool) {
    let middle = ProbeKey::made(rt, 5, probe);
    let parts = parted(rt, alloc, tree, &middle, steps);
    probe.refuse(true);
    let closed = join2(alloc, &parts.below, &parts.above, steps).is_err();
    let joined = join(alloc, &parts.below, middle, 5, &parts.above, steps).is_err();
    probe.refuse(false);
    (joined, closed)
}

/// Which of `split`, `expose` and `push_entries` are refused where shares are.
fn refused_wholes<R: Abort, M: Shape<Key = ProbeKey, Val = u64>, C: Ledger>(
    rt: &R,
    alloc: Global,
    probe: &Arc<Probe>,
    tree: &Tree<M>,
    steps: &mut Steps<C>,
) -> (bool, bool, bool) {
    let middle = ProbeKey::made(rt, 5, probe);
    probe.refuse(true);
    let split = split(alloc, tree, &middle, steps).is_err();
    let exposed = expose(alloc, tree).is_err();
    let listed = tree.push_entries(alloc, &mut Vec::new(alloc)).is_err();
    probe.refuse(false);
    (split, exposed, listed)
}

/// The numbers and values of a map's entries.
fn numbers<R: Abort, M: Shape<Key = ProbeKey, Val = u64>>(
    rt: &R,
    alloc: Global,
    tree: &Tree<M>,
) -> Vec<(u64, u64)> {
    let entries = listed(rt, alloc, tree);
    let mut numbers = Vec::new(alloc);
    for (key, val) in &entries {
        numbers.push((key.number(), *val)).expect(rt, "memory");
    }
    numbers
}

/// What was refused while shares were, and whether the map's entries were the same after.
#[derive(Clone, Copy)]
struct Refusals {
    points: (bool, bool, bool),
    joins: (bool, bool),
    wholes: (bool, bool, bool),
    is_unchanged: bool,
}

fn refused_counted<R: Abort, M: Shape<Key = ProbeKey, Val = u64>, C: Ledger>(
    rt: &R,
    alloc: Global,
    blank: Blank,
) -> Refusals
    requires { IsFresh C.name C.parts blank }
{
    let mut steps = Steps::<C>::start(blank);
    let probe = Probe::start(rt, alloc);
    let tree: Tree<M> = rising_watched(rt, alloc, &probe, 10, &mut steps);
    let before = numbers(rt, alloc, &tree);
    let points = refused_points(rt, alloc, &probe, &tree, &mut steps);
    let joins = refused_joins(rt, alloc, &probe, &tree, &mut steps);
    let wholes = refused_wholes(rt, alloc, &probe, &tree, &mut steps);
    Refusals {
        points,
        joins,
        wholes,
        is_unchanged: numbers(rt, alloc, &tree) == before,
    }
}

fn refused<R: Abort, M: Shape<Key = ProbeKey, Val = u64>>(rt: &R, alloc: Global) -> Refusals {
    refused_counted::<R, M, Brand>(rt, alloc, Blank::new(1))
}

#[test]
fn a_refused_share_leaves_the_map(rt: HostRuntime) {
    let nodes = refused::<HostRuntime, Watched<2>>(&rt, rt.alloc());
    assert_eq!(rt; nodes.points, (false, true, true));
    assert_eq!(rt; nodes.wholes, (true, true, true));
    assert!(rt; nodes.is_unchanged);
}

#[test]
fn a_refused_share_leaves_a_map_of_one_block(rt: HostRuntime) {
    let block = refused::<HostRuntime, Watched<32>>(&rt, rt.alloc());
    assert_eq!(rt; block.points, (false, true, true));
    assert_eq!(rt; block.joins, (true, true));
    assert_eq!(rt; block.wholes, (true, true, true));
    assert!(rt; block.is_unchanged);
}

/// The sum of the values. A sum past the greatest number is refused.
#[derive(Drop)]
struct CheckedSum;

impl Augment for CheckedSum {
    type Key = u64;

    type Val = u64;

    type Aug = u64;

    ghost Fits = { λ _. Unit {0} };

    ghost base_of = { λ _ val. val };

    ghost unit_of = { 0 };

    ghost combined = { λ a b. a + b };

    ghost never_refuses = { ⊥ };

    ghost base_fits = { λ _ _. tt };

    ghost monoid = { record { unit_fits = tt; combine_fits = λ a b f g. tt; left_unit = λ a f. omega arith; right_unit = λ a f. omega arith; assoc = λ a b c f g h. omega arith } };

    ghost augs_never_refuse = { λ _. tt };

    fn base(_alloc: Global, _key: &u64, val: &u64) -> Result<u64, NoMemory> {
        Ok(*val)
    }

    fn unit() -> u64 {
        0
    }

    fn combine<C: Ledger>(
        _alloc: Global,
        a: &u64,
        b: &u64,
        steps: &mut Steps<C>,
    ) -> Result<u64, NoMemory> {
        steps.tick();
        a.checked_add(*b).ok_or(NoMemory)
    }
}

type Checked<const B: usize> = Of<CheckedSum, PlainLeaf<u64, u64>, B>;

/// Whether a map of nine keys refuses a value that is too large for its sum, and its fold and size after.
fn overfull_counted<R: Abort, M: Shape<Key = u64, Val = u64, Aug = u64>, C: Ledger>(
    rt: &R,
    alloc: Global,
    blank: Blank,
) -> (bool, Option<u64>, u64)
    requires { IsFresh C.name C.parts blank }
{
    let mut steps = Steps::<C>::start(blank);
    let mut tree: Tree<M> = Tree::empty();
    for key in 1..10 {
        tree = put(alloc, &tree, key, key, &mut steps).expect(rt, "memory");
    }
    let refused = put(alloc, &tree, 10, u64::MAX, &mut steps).is_err();
    (refused, tree.aug().copied(), tree.size())
}

fn overfull<R: Abort, M: Shape<Key = u64, Val = u64, Aug = u64>>(
    rt: &R,
    alloc: Global,
) -> (bool, Option<u64>, u64) {
    overfull_counted::<R, M, Brand>(rt, alloc, Blank::new(1))
}

#[test]
fn a_refused_fold_leaves_the_map(rt: HostRuntime) {
    let wanted = (true, Some(45), 9);
    assert_eq!(rt;
        overfull::<HostRuntime, Checked<1>>(&rt, rt.alloc()),
        wanted
    );
    assert_eq!(rt;
        overfull::<HostRuntime, Checked<32>>(&rt, rt.alloc()),
        wanted
    );
}
