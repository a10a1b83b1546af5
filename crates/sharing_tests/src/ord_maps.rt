//! Changes in place of ordered maps on one thread, whose values refuse to be shared.

use crate::tracked::{Shares, Tracked, tracked_evens};
use aug_monoid::Nothing;
use ord_map::OrdMap;
use std::alloc::Global;
use std::process::Abort;

type Tracking<'a> = OrdMap<Nothing<u64, Tracked<'a>>>;

/// So many entries fill 32 blocks, with 97 in each, and stand in 31 nodes.
const ENTRIES: u64 = 3135;

/// Sets each of the first even keys.
fn put_each<'a, R: Abort>(rt: &R, alloc: Global, map: &mut Tracking<'a>, shares: &'a Shares) {
    for half in 0..ENTRIES {
        let val = Tracked::new(0, shares);
        map.put(alloc, half.saturating_mul(2), val)
            .expect(rt, "put");
    }
}

/// Puts an odd key and removes the even one before it, in each block.
fn move_first<'a, R: Abort>(rt: &R, alloc: Global, map: &mut Tracking<'a>, shares: &'a Shares) {
    for half in 0..ENTRIES {
        if half.is_multiple_of(98) {
            let even = half.saturating_mul(2);
            let val = Tracked::new(half, shares);
            map.put(alloc, even.saturating_add(1), val)
                .expect(rt, "put");
            map.del(alloc, &even).expect(rt, "removal");
        }
    }
}

/// How many entries there are after these changes, and how often values were shared for them.
fn changed<R: Abort>(rt: &R, alloc: Global) -> (u64, u64) {
    let shares = Shares::new();
    let entries = tracked_evens(rt, alloc, ENTRIES, &shares);
    let mut map: Tracking<'_> = OrdMap::from_pairs(alloc, &entries).expect(rt, "memory");
    shares.refuse();
    shares.take();
    put_each(rt, alloc, &mut map, &shares);
    move_first(rt, alloc, &mut map, &shares);
    (map.len(), shares.take())
}

// A change by a copy would share values, and be refused.
#[test]
fn puts_and_removals_share_no_value(rt: HostRuntime) {
    assert_eq!(rt; changed(&rt, rt.alloc()), (ENTRIES, 0));
}
