//! Maps of a few entries, taken apart.

ghost use Rattle.aug_monoid.specs.Fresh.{IsFresh};

use super::growing::rising;
use super::markers::Plain;
use aug_monoid::Steps;
use std::alloc::Global;
use std::marker::Brand;
use std::process::Abort;
use std::sync::ledger::{Blank, Ledger};
use tree_cut::expose;
use tree_shape::{Shape, Tree};

/// How many keys stand before and after the entry at the top of the map of the keys from 1 to below a number, and that
/// entry's key.
fn exposed_counted<R: Abort, M: Shape<Key = u64, Val = u64>, C: Ledger>(
    rt: &R,
    alloc: Global,
    end: u64,
    blank: Blank,
) -> Option<(u64, u64, u64)>
    requires { IsFresh C.name C.parts blank }
{
    let mut steps = Steps::<C>::start(blank);
    let tree: Tree<M> = rising(rt, alloc, end, &mut steps);
    let sides = expose(alloc, &tree).expect(rt, "memory");
    match sides {
        Some(sides) => Some((sides.left.size(), sides.key, sides.right.size())),
        None => None,
    }
}

fn exposed<R: Abort, M: Shape<Key = u64, Val = u64>>(
    rt: &R,
    alloc: Global,
    end: u64,
) -> Option<(u64, u64, u64)> {
    exposed_counted::<R, M, Brand>(rt, alloc, end, Blank::new(1))
}

#[test]
fn small_maps_are_halved(rt: HostRuntime) {
    let wanted = Some((1, 2, 1));
    assert_eq!(rt;
        exposed::<HostRuntime, Plain<1>>(&rt, rt.alloc(), 4),
        wanted
    );
    assert_eq!(rt;
        exposed::<HostRuntime, Plain<32>>(&rt, rt.alloc(), 4),
        wanted
    );
    assert_eq!(rt; exposed::<HostRuntime, Plain<32>>(&rt, rt.alloc(), 1), None);
}
