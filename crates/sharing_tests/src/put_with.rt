//! How many values are shared where keys are set to what their old values and new ones make.
ghost use Rattle.aug_monoid.specs.Fresh.{IsFresh};

use crate::tracked::{Shares, Tracked, tracked_evens};
use aug_map::Map;
use aug_monoid::{Nothing, Second, Steps};
use leaf_blocks::PlainLeaf;
use std::alloc::Global;
use std::marker::Brand;
use std::process::Abort;
use std::sync::ledger::{Blank, Ledger};

/// How many entries there are.
const ENTRIES: u64 = 1000;

/// How often values are shared where each key of a map is set so.
fn shared_in<R: Abort, const B: usize, C: Ledger>(
    rt: &R,
    alloc: Global,
    steps: &mut Steps<C>,
) -> u64 {
    let shares = Shares::new();
    let entries = tracked_evens(rt, alloc, ENTRIES, &shares);
    let mut map: Map<Nothing<u64, Tracked<'_>>, PlainLeaf<u64, Tracked<'_>>, B> = Map::build_alone(
        alloc, &entries,
    ).expect(rt, "memory");
    shares.take();
    for half in 0..ENTRIES {
        let val = Tracked::new(0, &shares);
        map.put_with(alloc, half.saturating_mul(2), val, &Second, steps)
            .expect(rt, "put");
    }
    shares.take()
}

/// The same for blocks of at least 1, 2 and 32 entries.
fn shared_counted<R: Abort, C: Ledger>(rt: &R, alloc: Global, blank: Blank) -> [u64; 3]
    requires { IsFresh C.name C.parts blank }
{
    let mut steps = Steps::<C>::start(blank);
    let one = shared_in::<R, 1, C>(rt, alloc, &mut steps);
    let two = shared_in::<R, 2, C>(rt, alloc, &mut steps);
    let many = shared_in::<R, 32, C>(rt, alloc, &mut steps);
    [one, two, many]
}

fn shared<R: Abort>(rt: &R, alloc: Global) -> [u64; 3] {
    shared_counted::<R, Brand>(rt, alloc, Blank::new(1))
}

// The old value is shared to be looked at, and the new one by `Second`. A change by a copy would share a block besides.
#[test]
fn a_put_with_shares_no_value_but_its_own(rt: HostRuntime) {
    assert_eq!(rt; shared(&rt, rt.alloc()), [2 * ENTRIES; 3]);
}
