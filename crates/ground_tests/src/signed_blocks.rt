//! Keys with and without a sign as numbers, at the ends of their types, and blocks of them.

use crate::blocks::{assert_seeks, walked};
use aug_monoid::{Leaf, LeafMut};
use diff_leaf::{NumberKey, NumberLeaf, leaf_crosses};
use std::alloc::Global;
use std::process::Abort;

/// Asserts which numbers keys stand for, and that these are the numbers of no other keys.
fn assert_numbers<R: Abort, K: NumberKey>(rt: &R, rows: &[(K, u64)]) {
    for row in rows {
        let number = row.0.number();
        assert_eq!(rt; number, row.1);
        assert!(rt; K::of_number(number) == row.0);
    }
}

const I64: &[(i64, u64)] = &[
    (-9223372036854775808, 0),
    (-9223372036854775807, 1),
    (-1, 9223372036854775807),
    (0, 9223372036854775808),
    (1, 9223372036854775809),
    (9223372036854775807, 18446744073709551615),
];

const ISIZE: &[(isize, u64)] = &[
    (-9223372036854775808, 0),
    (0, 9223372036854775808),
    (9223372036854775807, 18446744073709551615),
];

const I32: &[(i32, u64)] = &[
    (-2147483648, 0),
    (-1, 2147483647),
    (0, 2147483648),
    (2147483647, 4294967295),
];

const I16: &[(i16, u64)] = &[(-32768, 0), (-1, 32767), (0, 32768), (32767, 65535)];

const I8: &[(i8, u64)] = &[(-128, 0), (-1, 127), (0, 128), (127, 255)];

#[test]
fn keys_with_a_sign_count_from_the_least(rt: HostRuntime) {
    assert_numbers(&rt, I64);
    assert_numbers(&rt, ISIZE);
    assert_numbers(&rt, I32);
    assert_numbers(&rt, I16);
    assert_numbers(&rt, I8);
}

#[test]
fn keys_without_a_sign_are_numbers(rt: HostRuntime) {
    let greatest = 18446744073709551615;
    assert_numbers(&rt, &[(0u64, 0), (18446744073709551615, greatest)]);
    assert_numbers(&rt, &[(0usize, 0), (18446744073709551615, greatest)]);
    assert_numbers(&rt, &[(0u32, 0), (4294967295, 4294967295)]);
    assert_numbers(&rt, &[(0u16, 0), (65535, 65535)]);
    assert_numbers(&rt, &[(0u8, 0), (255, 255)]);
}

/// The block of the least key, -1, 0 and the greatest.
fn longest<R: Abort>(rt: &R, alloc: Global) -> NumberLeaf<i64, ()> {
    let keys = [(i64::MIN, ()), (-1, ()), (0, ()), (i64::MAX, ())];
    NumberLeaf::from_entries(alloc, &keys).expect(rt, "memory")
}

const FROM_END_TO_END: &[(i64, ())] = &[
    (-9223372036854775808, ()),
    (-1, ()),
    (0, ()),
    (9223372036854775807, ()),
];

const PLACES: &[(i64, u64, bool)] = &[
    (-9223372036854775808, 0, true),
    (-9223372036854775807, 1, false),
    (-1, 1, true),
    (0, 2, true),
    (1, 3, false),
    (9223372036854775807, 3, true),
];

fn assert_code<R: Abort, K: NumberKey>(rt: &R, leaf: &NumberLeaf<K, ()>, bytes: &[u8]) {
    assert_eq!(rt; leaf.code(), bytes);
}

#[test]
fn a_block_from_the_least_key_to_the_greatest(rt: HostRuntime) {
    let leaf = longest(&rt, rt.alloc());
    leaf_crosses(&leaf);
    let bytes = b"\x00\xff\xff\xff\xff\xff\xff\xff\xff\x7f\x01\xff\xff\xff\xff\xff\xff\xff\xff\x7f";
    assert_code(&rt, &leaf, bytes);
    assert_seeks(&rt, &leaf, PLACES);
    assert_eq!(rt; walked(&rt, rt.alloc(), &leaf).as_slice(), FROM_END_TO_END);
}

/// The block of the keys -128, -1, 0 and 127.
fn short<R: Abort>(rt: &R, alloc: Global) -> NumberLeaf<i8, ()> {
    let keys = [(-128, ()), (-1, ()), (0, ()), (127, ())];
    NumberLeaf::from_entries(alloc, &keys).expect(rt, "memory")
}

const SHORT: &[(i8, ())] = &[(-128, ()), (-1, ()), (0, ()), (127, ())];

const SHORT_PLACES: &[(i8, u64, bool)] = &[(-128, 0, true), (-2, 1, false), (127, 3, true)];

#[test]
fn a_block_of_short_keys_with_a_sign(rt: HostRuntime) {
    let leaf = short(&rt, rt.alloc());
    assert_code(&rt, &leaf, b"\x00\x7f\x01\x7f");
    assert_seeks(&rt, &leaf, SHORT_PLACES);
    assert_eq!(rt; walked(&rt, rt.alloc(), &leaf).as_slice(), SHORT);
}

/// The block of the keys 0, 1, 254 and 255.
fn bytes<R: Abort>(rt: &R, alloc: Global) -> NumberLeaf<u8, ()> {
    let keys = [(0, ()), (1, ()), (254, ()), (255, ())];
    NumberLeaf::from_entries(alloc, &keys).expect(rt, "memory")
}

const BYTES: &[(u8, ())] = &[(0, ()), (1, ()), (254, ()), (255, ())];

const BYTE_PLACES: &[(u8, u64, bool)] = &[(0, 0, true), (2, 2, false), (255, 3, true)];

#[test]
fn a_block_of_short_keys_without_a_sign(rt: HostRuntime) {
    let leaf = bytes(&rt, rt.alloc());
    assert_code(&rt, &leaf, b"\x00\x01\xfd\x01\x01");
    assert_seeks(&rt, &leaf, BYTE_PLACES);
    assert_eq!(rt; walked(&rt, rt.alloc(), &leaf).as_slice(), BYTES);
}

/// The block of -5,1 7,2 with -1,3 between these, put there in place.
fn grown<R: Abort>(rt: &R, alloc: Global) -> NumberLeaf<i64, u64> {
    let mut leaf: NumberLeaf<i64, u64> = NumberLeaf::from_entries(alloc, &[(-5, 1), (7, 2)]).expect(
        rt, "memory",
    );
    leaf.insert_at(alloc, 1, -1, 3).expect(rt, "memory");
    leaf
}

/// The block of -5,1 7,2 with -6,4 at its first place and without its last entry, in place.
fn shrunk<R: Abort>(rt: &R, alloc: Global) -> NumberLeaf<i64, u64> {
    let mut leaf: NumberLeaf<i64, u64> = NumberLeaf::from_entries(alloc, &[(-5, 1), (7, 2)]).expect(
        rt, "memory",
    );
    leaf.set_at(alloc, 0, -6, 4).expect(rt, "memory");
    leaf.remove_at(alloc, 1).expect(rt, "memory");
    leaf
}

/// The block of -5,1 and 7,2, put together around -2,9 of the front and the back of the block of both.
fn rejoined<R: Abort>(rt: &R, alloc: Global) -> NumberLeaf<i64, u64> {
    let leaf: NumberLeaf<i64, u64> = NumberLeaf::from_entries(alloc, &[(-5, 1), (7, 2)]).expect(
        rt, "memory",
    );
    let front = leaf.front(alloc, 1).expect(rt, "memory");
    let back = leaf.back(alloc, 1).expect(rt, "memory");
    front.concat3(alloc, -2, 9, &back).expect(rt, "memory")
}

fn assert_entries<R: Abort>(
    rt: &R,
    alloc: Global,
    leaf: &NumberLeaf<i64, u64>,
    wanted: &[(i64, u64)],
) {
    assert_eq!(rt; walked(rt, alloc, leaf).as_slice(), wanted);
}

#[test]
fn keys_below_0_are_put_and_removed(rt: HostRuntime) {
    let alloc = rt.alloc();
    assert_entries(&rt, alloc, &grown(&rt, alloc), &[(-5, 1), (-1, 3), (7, 2)]);
    assert_entries(&rt, alloc, &shrunk(&rt, alloc), &[(-6, 4)]);
    assert_entries(
        &rt,
        alloc,
        &rejoined(&rt, alloc),
        &[(-5, 1), (-2, 9), (7, 2)],
    );
}
