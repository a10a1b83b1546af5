//! The bytes of small blocks, worked out by hand, and such blocks through their trait.

use crate::blocks::{
    assert_seeks, assert_shares, assert_walk, between_none, cut_apart, grown, inserted, lessened,
    one, rejoined, rejoined_owned, replaced, shrunk, walked,
};
use aug_monoid::{Leaf, owned};
use diff_leaf::{DiffLeaf, leaf_crosses};
use std::alloc::Global;
use std::process::Abort;

fn assert_code<R: Abort>(rt: &R, leaf: DiffLeaf<u64>, bytes: &[u8]) {
    assert_eq!(rt; leaf.code(), bytes);
}

/// The leaf of the keys 0, 127, 128 and 300.
fn keys<R: Abort>(rt: &R, alloc: Global) -> DiffLeaf<()> {
    let keys = [(0, ()), (127, ()), (128, ()), (300, ())];
    DiffLeaf::from_entries(alloc, &keys).expect(rt, "memory")
}

fn assert_keys<R: Abort>(rt: &R, leaf: &DiffLeaf<()>, bytes: &[u8]) {
    assert_eq!(rt; leaf.code(), bytes);
}

#[test]
fn keys_without_values(rt: HostRuntime) {
    let leaf = keys(&rt, rt.alloc());
    leaf_crosses(&leaf);
    assert_keys(&rt, &leaf, b"\x00\x7f\x01\xac\x01");
    let last = owned(rt.alloc(), leaf.get_at(3)).expect(&rt, "memory");
    assert!(rt; last == Some((300, ())));
    assert!(rt; walked(&rt, rt.alloc(), &leaf).len() == 4);
}

const PLACES: &[(u64, u64, bool)] = &[
    (0, 0, true),
    (1, 1, false),
    (128, 2, true),
    (300, 3, true),
    (301, 4, false),
];

#[test]
fn keys_are_found_at_their_places(rt: HostRuntime) {
    assert_seeks(&rt, &keys(&rt, rt.alloc()), PLACES);
}

#[test]
fn the_greatest_key(rt: HostRuntime) {
    let keys = DiffLeaf::<()>::from_entries(rt.alloc(), &[(u64::MAX, ())]);
    let bytes = b"\xff\xff\xff\xff\xff\xff\xff\xff\xff\x01";
    assert_keys(&rt, &keys.expect(&rt, "memory"), bytes);
}

#[test]
fn a_value_after_each_gap(rt: HostRuntime) {
    let alloc = rt.alloc();
    assert_code(&rt, one(&rt, alloc), b"\x05\xac\x02");
    assert_code(&rt, rejoined(&rt, alloc), b"\x05\x01\x01\x04\x01\x02");
    assert_code(&rt, rejoined_owned(&rt, alloc), b"\x05\x01\x01\x04\x01\x02");
    let (front, back) = cut_apart(&rt, alloc);
    assert_code(&rt, front, b"\x05\x01");
    assert_code(&rt, back, b"\xac\x02\x03");
    assert_code(&rt, between_none(&rt, alloc), b"\x07\x01");
}

#[test]
fn the_key_after_a_change_is_coded_anew(rt: HostRuntime) {
    let alloc = rt.alloc();
    let bytes = b"\x05\x01\x02\x02\x02\x04\xa3\x02\x03";
    assert_code(&rt, inserted(&rt, alloc), bytes);
    let bytes = b"\x05\x01\x02\x08\xa5\x02\x03";
    assert_code(&rt, replaced(&rt, alloc), bytes);
    assert_code(&rt, lessened(&rt, alloc), b"\x05\x01\xa7\x02\x03");
}

#[test]
fn a_walk_decodes_all_entries(rt: HostRuntime) {
    let alloc = rt.alloc();
    let leaf: DiffLeaf<u64> = inserted(&rt, alloc);
    assert_walk(&rt, alloc, &leaf, &[(5, 1), (7, 2), (9, 4), (300, 3)]);
}

#[test]
fn entries_are_decoded_behind_those_that_stood_there(rt: HostRuntime) {
    let leaf: DiffLeaf<u64> = inserted(&rt, rt.alloc());
    assert_shares(&rt, rt.alloc(), &leaf, SHARED);
}

const SHARED: &[(u64, u64)] = &[(1, 9), (5, 1), (7, 2), (9, 4), (300, 3)];

#[test]
fn one_entry_is_changed_in_place(rt: HostRuntime) {
    let alloc = rt.alloc();
    assert_code(&rt, grown(&rt, alloc), b"\x05\x01\x01\x04\x01\x02");
    assert_code(&rt, shrunk(&rt, alloc), b"\x07\x08");
}
