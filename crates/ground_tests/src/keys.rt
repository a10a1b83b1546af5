//! Keys of each kind in their order, at the ends of their ranges, and their shares.
use crate::instances::order_of;
use aug_monoid::{Bytes, Items, Key, Share, Shared, Text};
use std::alloc::Global;
use std::cmp::{Ordering, Reverse};
use std::process::Abort;

/// Asserts that a key is below another, and each equal to itself.
fn assert_below<R: Abort, K: Key>(rt: &R, low: &K, high: &K) {
    assert!(rt; order_of(low, high) == Ordering::Less);
    assert!(rt; order_of(high, low) == Ordering::Greater);
    assert!(rt; order_of(low, low) == Ordering::Equal);
    assert!(rt; order_of(high, high) == Ordering::Equal);
}

fn text<R: Abort>(rt: &R, alloc: Global, text: &str) -> Text {
    Text::from_str(alloc, text).expect(rt, "memory")
}

fn bytes<R: Abort>(rt: &R, alloc: Global, bytes: &[u8]) -> Bytes {
    Bytes::from_slice(alloc, bytes).expect(rt, "memory")
}

fn shared<R: Abort>(rt: &R, alloc: Global, name: &str) -> Shared<Text> {
    Shared::new(alloc, text(rt, alloc, name)).expect(rt, "memory")
}

#[test]
fn numbers_from_0_on(rt: HostRuntime) {
    assert_below(&rt, &0u8, &u8::MAX);
    assert_below(&rt, &255u16, &u16::MAX);
    assert_below(&rt, &65535u32, &u32::MAX);
    assert_below(&rt, &4294967295u64, &u64::MAX);
    assert_below(&rt, &18446744073709551615u128, &u128::MAX);
    assert_below(&rt, &0usize, &usize::MAX);
}

#[test]
fn numbers_below_0_come_first(rt: HostRuntime) {
    assert_below(&rt, &i8::MIN, &i8::MAX);
    assert_below(&rt, &-1i16, &0);
    assert_below(&rt, &i32::MIN, &-1);
    assert_below(&rt, &i64::MIN, &i64::MAX);
    assert_below(&rt, &i128::MIN, &i128::MAX);
    assert_below(&rt, &isize::MIN, &0);
}

#[test]
fn truth_values_and_characters(rt: HostRuntime) {
    assert_below(&rt, &false, &true);
    assert_below(&rt, &'Z', &'a');
    assert_below(&rt, &'\0', &'\u{10FFFF}');
}

#[test]
fn texts_by_their_bytes(rt: HostRuntime) {
    let alloc = rt.alloc();
    assert_below(&rt, &text(&rt, alloc, ""), &text(&rt, alloc, "a"));
    assert_below(&rt, &text(&rt, alloc, "a"), &text(&rt, alloc, "ab"));
    assert_below(&rt, &text(&rt, alloc, "Zz"), &text(&rt, alloc, "a"));
    assert_below(&rt, &text(&rt, alloc, "zz"), &text(&rt, alloc, "é"));
}

#[test]
fn bytes_by_the_first_that_differs(rt: HostRuntime) {
    let alloc = rt.alloc();
    assert_below(&rt, &bytes(&rt, alloc, &[]), &bytes(&rt, alloc, &[0]));
    assert_below(&rt, &bytes(&rt, alloc, &[1, 255]), &bytes(&rt, alloc, &[2]));
}

#[test]
fn pairs_and_triples_by_their_first_part(rt: HostRuntime) {
    assert_below(&rt, &(1u32, true), &(2, false));
    assert_below(&rt, &(1u32, false), &(1, true));
    assert_below(&rt, &(-1i8, 'b', 9u64), &(0, 'a', 0));
    assert_below(&rt, &(0i8, 'a', 9u64), &(0, 'b', 0));
    assert_below(&rt, &(0i8, 'a', 8u64), &(0, 'a', 9));
}

#[test]
fn keys_the_other_way_round(rt: HostRuntime) {
    assert_below(&rt, &Reverse(u64::MAX), &Reverse(0));
}

#[test]
fn an_absent_key_comes_first(rt: HostRuntime) {
    assert_below(&rt, &None, &Some(0u64));
    assert_below(&rt, &Some(0u64), &Some(1));
}

#[test]
fn shared_keys_by_what_they_are(rt: HostRuntime) {
    let alloc = rt.alloc();
    let fig = shared(&rt, alloc, "fig");
    assert_below(&rt, &fig, &shared(&rt, alloc, "pear"));
    assert!(rt; order_of(&fig, &shared(&rt, alloc, "fig")) == Ordering::Equal);
}

#[test]
fn copies_have_the_same_text_and_items(rt: HostRuntime) {
    let alloc = rt.alloc();
    let copy = text(&rt, alloc, "fig").share(alloc).expect(&rt, "memory");
    assert_eq!(rt; copy.as_str(), "fig");
    let owner = shared(&rt, alloc, "fig").share(alloc).expect(&rt, "memory");
    assert_eq!(rt; owner.value().as_str(), "fig");
    let few = bytes(&rt, alloc, &[1, 2])
        .share(alloc)
        .expect(&rt, "memory");
    assert_eq!(rt; few.into_vec().as_slice(), [1, 2].as_slice());
    let list = Vec::from_slice(alloc, &[-1i64, 5]).expect(&rt, "memory");
    let items = Items::from_vec(list).share(alloc).expect(&rt, "memory");
    assert_eq!(rt; items.as_slice(), [-1, 5].as_slice());
}

#[test]
fn a_text_of_a_string_and_back(rt: HostRuntime) {
    let alloc = rt.alloc();
    let name = String::from_str(alloc, "fig").expect(&rt, "memory");
    assert_eq!(rt; Text::from_string(name).into_string().as_str(), "fig");
}

#[test]
fn shares_that_take_no_memory(rt: HostRuntime) {
    assert!(rt; i128::is_total() && bool::is_total() && char::is_total());
    assert!(rt; <(u8, i8, usize)>::is_total() && Reverse::<u16>::is_total());
    assert!(rt; !Text::is_total() && !<(u8, Text)>::is_total());
}
