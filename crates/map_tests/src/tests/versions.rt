//! What has changed from one version of a map to another.
use super::ordered::four;
use aug_monoid::{Share, SumMax};
use ord_map::{Change, OrdMap};
use std::alloc::Global;
use std::process::Abort;

/// The key of a change, with the value that it had and the one that it has.
fn sides(change: &Change<u64, u64>) -> (u64, Option<u64>, Option<u64>) {
    match change {
        Change::Added { key, val } => (*key, None, Some(*val)),
        Change::Removed { key, val } => (*key, Some(*val), None),
        Change::Updated { key, old, new } => (*key, Some(*old), Some(*new)),
    }
}

/// A map with some keys changed, one of them to the value that it had.
fn changed<R: Abort>(rt: &R, alloc: Global, map: &OrdMap<SumMax<u64>>) -> OrdMap<SumMax<u64>> {
    let mut now = map.share(alloc).expect(rt, "memory");
    now.del(alloc, &2).expect(rt, "memory");
    now.put(alloc, 6, 61).expect(rt, "memory");
    now.put(alloc, 7, 70).expect(rt, "memory");
    now.put(alloc, 8, 80).expect(rt, "memory");
    now
}

#[test]
fn what_has_changed_from_one_version_to_the_next(rt: HostRuntime) {
    let alloc = rt.alloc();
    let before = four(&rt, alloc);
    let now = changed(&rt, alloc, &before);
    let changes = before.diff(alloc, &now).expect(&rt, "memory");
    let mut told = Vec::new(alloc);
    for change in &changes {
        told.push(sides(change)).expect(&rt, "memory");
    }
    let wanted = [
        (2, Some(20), None),
        (6, Some(60), Some(61)),
        (7, None, Some(70)),
    ];
    assert_eq!(rt; told.as_slice(), wanted.as_slice());
}
