//! The plain program on small maps.
use map_model::{
    entries_above, entries_below, entries_between, entries_not_in, keys_below, value_at,
    with_pairs, with_value, without_key,
};
use std::alloc::AllocError;
use std::process::Abort;

const ODD: &[(u64, u64)] = &[(1, 10), (3, 30), (5, 50)];

const FEW: &[(u64, u64)] = &[(3, 4), (4, 40)];

const ALL: &[(u64, u64)] = &[(1, 10), (3, 34), (4, 40), (5, 50)];

fn check(rt: &impl Abort, entries: Result<Vec<(u64, u64)>, AllocError>, want: &[(u64, u64)]) {
    assert_eq!(rt; entries.expect(rt, "memory").as_slice(), want);
}

#[test]
fn changes(rt: HostRuntime) {
    let alloc = rt.alloc();
    let pairs = [(5, 50), (3, 3), (1, 10), (3, 30)];
    check(&rt, with_pairs(alloc, &[], &pairs), ODD);
    check(&rt, with_value(alloc, FEW, 3, 7), &[(3, 7), (4, 40)]);
    check(&rt, without_key(alloc, FEW, 3), &[(4, 40)]);
    check(&rt, entries_not_in(alloc, ODD, FEW), &[(1, 10), (5, 50)]);
}

#[test]
fn parts(rt: HostRuntime) {
    let alloc = rt.alloc();
    check(&rt, entries_below(alloc, ALL, 4), &[(1, 10), (3, 34)]);
    check(&rt, entries_above(alloc, ALL, 4), &[(5, 50)]);
    check(&rt, entries_between(alloc, ALL, 2, 4), &[(3, 34), (4, 40)]);
}

#[test]
fn places(rt: HostRuntime) {
    assert_eq!(rt; keys_below(ALL, 4), 2);
    assert_eq!(rt; value_at(ALL, &4), Some(40));
    assert_eq!(rt; value_at(ALL, &2), None);
}
