//! Maps of numbers, with the sum and the greatest of their values. Where memory is refused, a test ends here.

use aug_map::Map;
use aug_monoid::{Leaf, NoMemory, Steps, SumMax};
use std::alloc::Global;
use std::process::Abort;
use std::sync::ledger::Ledger;

pub(super) type Sums<L, const B: usize> = Map<SumMax<u64>, L, B>;

pub(super) type Entries = Vec<(u64, u64)>;

/// The map of these entries, put one after the other.
pub(super) fn map_of<R: Abort, L: Leaf<u64, u64>, const B: usize, C: Ledger>(
    rt: &R,
    alloc: Global,
    entries: &[(u64, u64)],
    steps: &mut Steps<C>,
) -> Sums<L, B> {
    let mut map: Sums<L, B> = Map::empty();
    for entry in entries {
        map = map.put(alloc, entry.0, entry.1, steps).expect(rt, "memory");
    }
    map
}

/// Asserts that a map has these entries.
pub(super) fn assert_has<R: Abort, L: Leaf<u64, u64>, const B: usize>(
    rt: &R,
    alloc: Global,
    map: &Sums<L, B>,
    wanted: &[(u64, u64)],
) {
    let list = map.to_vec(alloc).expect(rt, "memory");
    assert_eq!(rt; list.as_slice(), wanted);
}

/// Asserts that a map, which is dropped, was made and has these entries.
pub(super) fn assert_made<R: Abort, L: Leaf<u64, u64>, const B: usize>(
    rt: &R,
    alloc: Global,
    map: Result<Sums<L, B>, NoMemory>,
    wanted: &[(u64, u64)],
) {
    assert_has(rt, alloc, &map.expect(rt, "memory"), wanted);
}
