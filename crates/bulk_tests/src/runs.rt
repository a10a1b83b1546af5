//! Maps of multiples, and their entries. Where memory is refused, a test ends here.

use aug_map::Map;
use aug_map::shaped::{Map as ShapedMap, Shape};
use aug_monoid::{Leaf, NoMemory, SumMax};
use fork_join::{Cut, FreeGate};
use std::alloc::Global;
use std::marker::{Send, Sync};
use std::process::Abort;
use std::thread::Threads;

pub(crate) type Sums<L, const B: usize> = Map<SumMax<u64>, L, B>;

/// The multiples of a step from a number on and below another.
#[derive(Clone, Copy, Debug)]
pub(crate) struct Multiples {
    step: u64,
    from: u64,
    pub(crate) end: u64,
}

pub(crate) fn multiples_of(step: u64, from: u64, end: u64) -> Multiples {
    Multiples { step, from, end }
}

impl Multiples {
    /// The value at a key, if it is one of the multiples: the key, and the step as the last digit.
    pub(crate) fn value_at(self, key: u64) -> Option<u64> {
        if self.from <= key && key < self.end && key.is_multiple_of(self.step) {
            Some(key.wrapping_mul(10).wrapping_add(self.step))
        } else {
            None
        }
    }

    /// The entries, the greatest key first.
    fn falling<R: Abort>(self, rt: &R, alloc: Global) -> Vec<(u64, u64)> {
        let mut pairs = Vec::new(alloc);
        for key in (self.from..self.end).rev() {
            if let Some(val) = self.value_at(key) {
                pairs.push((key, val)).expect(rt, "memory");
            }
        }
        pairs
    }

    /// The map of the multiples.
    pub(crate) fn built<R: Threads + Abort + Sync, L: Leaf<u64, u64> + Send + Sync, const B: usize>(
        self,
        rt: &R,
        alloc: Global,
        cut: Cut,
    ) -> Sums<L, B> {
        let pairs = self.falling(rt, alloc);
        Map::build(rt, alloc, &FreeGate, cut, pairs.as_slice()).expect(rt, "memory")
    }

    /// The same, built on one thread.
    pub(crate) fn built_alone<R: Abort, L: Leaf<u64, u64>, const B: usize>(
        self,
        rt: &R,
        alloc: Global,
    ) -> Sums<L, B> {
        let pairs = self.falling(rt, alloc);
        Map::build_alone(alloc, pairs.as_slice()).expect(rt, "memory")
    }
}

/// Asserts that a map has these entries.
pub(crate) fn assert_has<R: Abort, M: Shape<Key = u64, Val = u64>>(
    rt: &R,
    alloc: Global,
    map: &ShapedMap<M>,
    wanted: &[(u64, u64)],
) {
    let entries = map.to_vec(alloc).expect(rt, "memory");
    assert_eq!(rt; entries.as_slice(), wanted);
}

/// Asserts that a map, which is dropped, was made and has these entries.
pub(crate) fn assert_made<R: Abort, L: Leaf<u64, u64>, const B: usize>(
    rt: &R,
    alloc: Global,
    map: Result<Sums<L, B>, NoMemory>,
    wanted: &[(u64, u64)],
) {
    assert_has(rt, alloc, &map.expect(rt, "memory"), wanted);
}
