//! Items that come and go at places and at ends.
use aug_monoid::NoMemory;
use pac_seq::{Seq, SeqOver, SumTop};
use std::alloc::Global;
use std::process::Abort;

type Numbers = Seq<SumTop, 2>;

/// The numbers 1 to 5, which stand in more than one block.
fn five<R: Abort>(rt: &R, alloc: Global) -> Numbers {
    SeqOver::from_items(alloc, &[1, 2, 3, 4, 5]).expect(rt, "memory")
}

/// Asserts that a sequence, which is dropped, was made and has these items.
fn assert_items<R: Abort>(rt: &R, alloc: Global, seq: Result<Numbers, NoMemory>, wanted: &[u64]) {
    let items = seq.expect(rt, "memory").to_vec(alloc).expect(rt, "memory");
    assert_eq!(rt; items.as_slice(), wanted);
}

#[test]
fn an_item_comes_before_a_place_or_behind_all(rt: HostRuntime) {
    let alloc = rt.alloc();
    let seq = five(&rt, alloc);
    assert_items(&rt, alloc, seq.insert(alloc, 2, 9), &[1, 2, 9, 3, 4, 5]);
    assert_items(&rt, alloc, seq.insert(alloc, 7, 9), &[1, 2, 3, 4, 5, 9]);
}

#[test]
fn an_item_goes_from_its_place(rt: HostRuntime) {
    let alloc = rt.alloc();
    let seq = five(&rt, alloc);
    assert_items(&rt, alloc, seq.remove(alloc, 0), &[2, 3, 4, 5]);
    assert_items(&rt, alloc, seq.remove(alloc, 4), &[1, 2, 3, 4]);
    assert_items(&rt, alloc, seq.remove(alloc, u64::MAX), &[1, 2, 3, 4, 5]);
}

#[test]
fn items_come_at_the_ends(rt: HostRuntime) {
    let alloc = rt.alloc();
    let seq = five(&rt, alloc);
    assert_items(&rt, alloc, seq.push_front(alloc, 9), &[9, 1, 2, 3, 4, 5]);
    assert_items(&rt, alloc, seq.push_back(alloc, 9), &[1, 2, 3, 4, 5, 9]);
}

#[test]
fn a_run_of_items(rt: HostRuntime) {
    let alloc = rt.alloc();
    let seq = five(&rt, alloc);
    assert_items(&rt, alloc, seq.slice(alloc, 1, 4), &[2, 3, 4]);
    assert_items(&rt, alloc, seq.slice(alloc, 3, 9), &[4, 5]);
    assert_items(&rt, alloc, seq.slice(alloc, 4, 1), &[]);
}

/// The item that was split from the others, and the sum of those.
fn apart<R: Abort>(
    rt: &R,
    alloc: Global,
    parts: Result<Option<(u64, Numbers)>, NoMemory>,
) -> Option<(u64, u64)> {
    let (item, rest) = parts.expect(rt, "memory")?;
    Some((item, rest.sum(alloc).sum))
}

#[test]
fn the_items_at_the_ends(rt: HostRuntime) {
    let alloc = rt.alloc();
    let seq = five(&rt, alloc);
    assert_eq!(rt; (seq.first(alloc), seq.last(alloc)), (Some(1), Some(5)));
    assert_eq!(rt; apart(&rt, alloc, seq.split_first(alloc)), Some((1, 14)));
    assert_eq!(rt; apart(&rt, alloc, seq.split_last(alloc)), Some((5, 10)));
}

#[test]
fn no_items_at_the_ends(rt: HostRuntime) {
    let alloc = rt.alloc();
    let none: Numbers = SeqOver::new();
    assert_eq!(rt; (none.first(alloc), none.last(alloc)), (None, None));
    assert_eq!(rt; apart(&rt, alloc, none.split_first(alloc)), None);
    assert_eq!(rt; apart(&rt, alloc, none.split_last(alloc)), None);
}
