//! A key that counts its own comparisons.

ghost use Rattle.aug_monoid.specs.Fresh.{IsFresh};

use super::probe::{Probe, ProbeKey};
use aug_monoid::{Nothing, Steps};
use leaf_blocks::PlainLeaf;
use std::alloc::Global;
use std::marker::Brand;
use std::process::Abort;
use std::sync::Arc;
use std::sync::ledger::{Blank, Ledger};
use tree_entry::{get, put};
use tree_shape::{Of, Shape, Tree};

pub(crate) type Watched<const B: usize> = Of<Nothing<ProbeKey, u64>, PlainLeaf<ProbeKey, u64>, B>;

/// The keys from 1 to below a number, put in rising order, each with its number as value.
pub(crate) fn rising_watched<R: Abort, M: Shape<Key = ProbeKey, Val = u64>, C: Ledger>(
    rt: &R,
    alloc: Global,
    probe: &Arc<Probe>,
    end: u64,
    steps: &mut Steps<C>,
) -> Tree<M> {
    let mut tree: Tree<M> = Tree::empty();
    for number in 1..end {
        let key = ProbeKey::made(rt, number, probe);
        tree = put(alloc, &tree, key, number, steps).expect(rt, "memory");
    }
    tree
}

/// What a look-up did: whether it found its key, and how many comparisons it took.
#[derive(Clone, Copy)]
struct Lookup {
    is_found: bool,
    comparisons: u64,
}

/// The look-up of a number.
fn looked_up<R: Abort, M: Shape<Key = ProbeKey, Val = u64>, C: Ledger>(
    rt: &R,
    alloc: Global,
    probe: &Arc<Probe>,
    tree: &Tree<M>,
    number: u64,
    steps: &mut Steps<C>,
) -> Lookup {
    let key = ProbeKey::made(rt, number, probe);
    let before = probe.comparisons();
    let val = get(alloc, tree, &key, steps).expect(rt, "memory");
    Lookup {
        is_found: val == Some(number),
        comparisons: probe.comparisons().saturating_sub(before),
    }
}

/// What look-ups did: how many found their key, and how many comparisons one took at most.
#[derive(Clone, Copy)]
struct Lookups {
    found: u64,
    most: u64,
}

impl Lookups {
    /// The look-ups with one more.
    fn with(self, lookup: Lookup) -> Lookups {
        Lookups {
            found: self.found.saturating_add(lookup.is_found as u64),
            most: self.most.max(lookup.comparisons),
        }
    }
}

/// The look-ups of the numbers below a number.
fn watched_lookups<R: Abort, M: Shape<Key = ProbeKey, Val = u64>, C: Ledger>(
    rt: &R,
    alloc: Global,
    probe: &Arc<Probe>,
    tree: &Tree<M>,
    count: u64,
    steps: &mut Steps<C>,
) -> Lookups {
    let mut lookups = Lookups { found: 0, most: 0 };
    for number in 0..count {
        lookups = lookups.with(looked_up(rt, alloc, probe, tree, number, steps));
    }
    lookups
}

/// The look-ups in a map of 100000 entries, and its height.
fn lookups_counted<R: Abort, M: Shape<Key = ProbeKey, Val = u64>, C: Ledger>(
    rt: &R,
    alloc: Global,
    blank: Blank,
) -> (Lookups, u32)
    requires { IsFresh C.name C.parts blank }
{
    let mut steps = Steps::<C>::start(blank);
    let probe = Probe::start(rt, alloc);
    let tree: Tree<M> = rising_watched(rt, alloc, &probe, 100001, &mut steps);
    let lookups = watched_lookups(rt, alloc, &probe, &tree, 100002, &mut steps);
    (lookups, tree.height())
}

/// Whether the look-ups in a map of 100000 entries found those and took no more comparisons than they may, which are the
/// height and 9.
fn are_within<R: Abort, M: Shape<Key = ProbeKey, Val = u64>>(rt: &R, alloc: Global) -> bool {
    let (lookups, height) = lookups_counted::<R, M, Brand>(rt, alloc, Blank::new(1));
    let most = height as u64 + 9;
    lookups.found == 100000 && 0 < lookups.most && lookups.most <= most
}

#[test]
fn lookups_in_blocks_of_one(rt: HostRuntime) {
    assert!(rt; are_within::<HostRuntime, Watched<1>>(&rt, rt.alloc()));
}

#[test]
fn lookups_in_blocks_of_two(rt: HostRuntime) {
    assert!(rt; are_within::<HostRuntime, Watched<2>>(&rt, rt.alloc()));
}

#[test]
fn lookups_in_blocks_of_32(rt: HostRuntime) {
    assert!(rt; are_within::<HostRuntime, Watched<32>>(&rt, rt.alloc()));
}
