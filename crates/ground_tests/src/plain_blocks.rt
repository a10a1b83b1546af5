//! Plain blocks of a few entries.

use crate::blocks::{
    assert_seeks, assert_shares, assert_walk, between_none, cut_apart, grown, inserted, lessened,
    one, rejoined, rejoined_owned, replaced, shrunk, walked,
};
use aug_monoid::{Leaf, Pair64, owned};
use leaf_blocks::{PlainLeaf, leaf_crosses};
use std::alloc::Global;
use std::process::Abort;

type Numbers = PlainLeaf<u64, u64>;

/// The leaf of five entries.
fn five<R: Abort>(rt: &R, alloc: Global) -> Numbers {
    let entries = [(2, 20), (4, 40), (6, 60), (8, 80), (10, 100)];
    PlainLeaf::from_entries(alloc, &entries).expect(rt, "memory")
}

const PLACES: &[(u64, u64, bool)] = &[
    (0, 0, false),
    (2, 0, true),
    (3, 1, false),
    (4, 1, true),
    (6, 2, true),
    (7, 3, false),
    (8, 3, true),
    (10, 4, true),
    (11, 5, false),
];

#[test]
fn keys_are_found_at_their_places(rt: HostRuntime) {
    assert_seeks(&rt, &five(&rt, rt.alloc()), PLACES);
}

#[test]
fn a_block_has_room_for_its_entries_alone(rt: HostRuntime) {
    let leaf = five(&rt, rt.alloc());
    assert_eq!(rt; leaf.into_entries().capacity(), 5);
    let (front, back): (Numbers, Numbers) = cut_apart(&rt, rt.alloc());
    assert_eq!(rt; front.into_entries().capacity(), 1);
    assert_eq!(rt; back.into_entries().capacity(), 1);
}

#[test]
fn an_entry_is_lent_by_its_place(rt: HostRuntime) {
    let leaf = five(&rt, rt.alloc());
    assert_eq!(rt; leaf.len(), 5);
    let last = owned(rt.alloc(), leaf.get_at(4)).expect(&rt, "memory");
    assert!(rt; last == Some((10, 100)));
    assert!(rt; leaf.get_at(5).is_none());
}

#[test]
fn a_walk_gives_all_entries(rt: HostRuntime) {
    let early = Pair64 {
        first: 1,
        second: 9,
    };
    let late = Pair64 {
        first: 2,
        second: 0,
    };
    let entries = [(early, ()), (late, ())];
    let leaf = PlainLeaf::<Pair64, ()>::from_entries(rt.alloc(), &entries).expect(&rt, "memory");
    leaf_crosses(&leaf);
    assert_eq!(rt;
        walked(&rt, rt.alloc(), &leaf).as_slice(),
        entries.as_slice()
    );
}

#[test]
fn entries_are_shared_behind_those_that_stood_there(rt: HostRuntime) {
    let leaf: Numbers = inserted(&rt, rt.alloc());
    assert_shares(&rt, rt.alloc(), &leaf, SHARED);
}

const SHARED: &[(u64, u64)] = &[(1, 9), (5, 1), (7, 2), (9, 4), (300, 3)];

fn assert_entries<R: Abort>(rt: &R, alloc: Global, leaf: Numbers, wanted: &[(u64, u64)]) {
    assert_walk(rt, alloc, &leaf, wanted);
}

const ONE: &[(u64, u64)] = &[(5, 300)];

const REJOINED: &[(u64, u64)] = &[(5, 1), (6, 4), (7, 2)];

const FRONT: &[(u64, u64)] = &[(5, 1)];

const BACK: &[(u64, u64)] = &[(300, 3)];

const BETWEEN_NONE: &[(u64, u64)] = &[(7, 1)];

#[test]
fn parts_are_put_together_again(rt: HostRuntime) {
    let alloc = rt.alloc();
    assert_entries(&rt, alloc, one(&rt, alloc), ONE);
    assert_entries(&rt, alloc, rejoined(&rt, alloc), REJOINED);
    assert_entries(&rt, alloc, rejoined_owned(&rt, alloc), REJOINED);
    let (front, back) = cut_apart(&rt, alloc);
    assert_entries(&rt, alloc, front, FRONT);
    assert_entries(&rt, alloc, back, BACK);
    assert_entries(&rt, alloc, between_none(&rt, alloc), BETWEEN_NONE);
}

const INSERTED: &[(u64, u64)] = &[(5, 1), (7, 2), (9, 4), (300, 3)];

const REPLACED: &[(u64, u64)] = &[(5, 1), (7, 8), (300, 3)];

const LESSENED: &[(u64, u64)] = &[(5, 1), (300, 3)];

#[test]
fn one_entry_is_changed(rt: HostRuntime) {
    let alloc = rt.alloc();
    assert_entries(&rt, alloc, inserted(&rt, alloc), INSERTED);
    assert_entries(&rt, alloc, replaced(&rt, alloc), REPLACED);
    assert_entries(&rt, alloc, lessened(&rt, alloc), LESSENED);
}

const GROWN: &[(u64, u64)] = &[(5, 1), (6, 4), (7, 2)];

const SHRUNK: &[(u64, u64)] = &[(7, 8)];

#[test]
fn one_entry_is_changed_in_place(rt: HostRuntime) {
    let alloc = rt.alloc();
    assert_entries(&rt, alloc, grown(&rt, alloc), GROWN);
    assert_entries(&rt, alloc, shrunk(&rt, alloc), SHRUNK);
}
