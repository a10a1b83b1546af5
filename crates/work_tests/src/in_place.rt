//! Changes in place of maps whose values refuse to be shared.
ghost use Rattle.aug_monoid.specs.Fresh.{IsFresh};

use crate::tracked::{Shares, Tracked, TrackedMap, tracked_evens};
use aug_map::Map;
use aug_monoid::Steps;
use std::alloc::Global;
use std::marker::Brand;
use std::process::Abort;
use std::sync::ledger::{Blank, Ledger};

/// Sets each of the first even keys.
fn set_each<'a, R: Abort, const B: usize, C: Ledger>(
    rt: &R,
    alloc: Global,
    map: &mut TrackedMap<'a, B>,
    count: u64,
    shares: &'a Shares,
    steps: &mut Steps<C>,
) {
    for half in 0..count {
        let val = Tracked::new(0, shares);
        map.put_mut(alloc, half.saturating_mul(2), val, steps)
            .expect(rt, "put");
    }
}

/// Puts an odd key and removes the even one before it, at the first even key and each that is a number of places further on.
fn move_first<'a, R: Abort, const B: usize, C: Ledger>(
    rt: &R,
    alloc: Global,
    map: &mut TrackedMap<'a, B>,
    count: u64,
    step: u64,
    shares: &'a Shares,
    steps: &mut Steps<C>,
) {
    for half in 0..count {
        if half.is_multiple_of(step) {
            let even = half.saturating_mul(2);
            let val = Tracked::new(half, shares);
            map.put_mut(alloc, even.saturating_add(1), val, steps)
                .expect(rt, "put");
            map.del_mut(alloc, &even, steps).expect(rt, "removal");
        }
    }
}

/// The size of a map of 64 blocks with so many entries each, after every key was set and the first entry of every block gave way to
/// another, and how often values were shared for it.
fn changed_in<R: Abort, const B: usize, C: Ledger>(
    rt: &R,
    alloc: Global,
    in_block: u64,
    steps: &mut Steps<C>,
) -> (u64, u64) {
    let shares = Shares::new();
    let count = in_block.saturating_mul(64).saturating_add(63);
    let entries = tracked_evens(alloc, count, &shares).expect(rt, "memory");
    let mut map: TrackedMap<'_, B> = Map::build_alone(alloc, &entries).expect(rt, "memory");
    shares.refuse();
    shares.take();
    set_each(rt, alloc, &mut map, count, &shares, steps);
    move_first(
        rt,
        alloc,
        &mut map,
        count,
        in_block.saturating_add(1),
        &shares,
        steps,
    );
    (map.size(), shares.take())
}

/// The same for blocks of at least 1, 2 and 32 entries, in which there is room for one more.
fn changed_counted<R: Abort, C: Ledger>(rt: &R, alloc: Global, blank: Blank) -> [(u64, u64); 3]
    requires { IsFresh C.name C.parts blank }
{
    let mut steps = Steps::<C>::start(blank);
    let one = changed_in::<R, 1, C>(rt, alloc, 1, &mut steps);
    let two = changed_in::<R, 2, C>(rt, alloc, 3, &mut steps);
    let many = changed_in::<R, 32, C>(rt, alloc, 48, &mut steps);
    [one, two, many]
}

fn changed<R: Abort>(rt: &R, alloc: Global) -> [(u64, u64); 3] {
    changed_counted::<R, Brand>(rt, alloc, Blank::new(1))
}

// A change by a copy would share values, and be refused.
#[test]
fn values_that_refuse_to_be_shared_are_changed_in_place(rt: HostRuntime) {
    assert_eq!(rt; changed(&rt, rt.alloc()), [(127, 0), (255, 0), (3135, 0)]);
}
