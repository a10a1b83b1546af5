//! Halves of a union that wait for one another.

use crate::runs::multiples_of;
use aug_monoid::{Leaf, Second};
use fork_join::Cut;
use leaf_blocks::PlainLeaf;
use meeting::Meeting;
use std::alloc::Global;
use std::marker::{Send, Sync};
use std::process::Abort;
use std::thread::Threads;

// The sizes of two maps and of their union in two threads, and whether the halves met.
fn united_halves<R: Threads + Abort + Sync, L: Leaf<u64, u64> + Send + Sync>(
    rt: &R,
    alloc: Global,
) -> (u64, u64, u64, bool) {
    let cut = Cut::new(2, 1);
    let a = multiples_of(2, 0, 8192).built::<R, L, 32>(rt, alloc, cut);
    let b = multiples_of(3, 0, 12288).built::<R, L, 32>(rt, alloc, cut);
    let gate = Meeting::new();
    let both = a
        .union(rt, alloc, &gate, cut, &b, &Second)
        .expect(rt, "memory");
    (a.size(), b.size(), both.size(), gate.was_met())
}

#[test]
fn halves_of_a_union_meet(rt: HostRuntime) {
    let halves = united_halves::<HostRuntime, PlainLeaf<u64, u64>>(&rt, rt.alloc());
    assert_eq!(rt; halves, (4096, 4096, 6826, true));
}
