//! Maps at texts and at numbers with a sign, with folds that are ready to take.
use aug_map::CodedMap;
use aug_monoid::{SumMax, Text, Totals};
use map_folds::{GreatestEntry, SignedSum};
use ord_map::OrdMap;
use std::alloc::Global;
use std::process::Abort;

type Words = OrdMap<GreatestEntry<Text, u64>>;

fn text<R: Abort>(rt: &R, alloc: Global, text: &str) -> Text {
    Text::from_str(alloc, text).expect(rt, "memory")
}

/// How often each word comes. The second count of a word replaces the first.
fn words<R: Abort>(rt: &R, alloc: Global) -> Words {
    let mut map: Words = OrdMap::new();
    for (word, times) in [("pear", 3), ("apple", 7), ("fig", 5), ("apple", 2)] {
        let word = text(rt, alloc, word);
        map.insert(alloc, word, times).expect(rt, "memory");
    }
    map
}

#[test]
fn a_map_of_texts(rt: HostRuntime) {
    let alloc = rt.alloc();
    let map = words(&rt, alloc);
    let apple = map
        .get(alloc, &text(&rt, alloc, "apple"))
        .expect(&rt, "memory");
    assert_eq!(rt; apple, Some(2));
    let mut line = String::new(alloc);
    for entry in map.iter(alloc) {
        let (word, _) = entry.expect(&rt, "memory");
        line.push_str(word.as_str()).expect(&rt, "memory");
        line.push(' ').expect(&rt, "memory");
    }
    assert_eq!(rt; line.as_str(), "apple fig pear ");
}

#[test]
fn the_most_frequent_of_some_texts(rt: HostRuntime) {
    let alloc = rt.alloc();
    let map = words(&rt, alloc);
    let from = text(&rt, alloc, "b");
    let to = text(&rt, alloc, "q");
    let found = map.fold_range(alloc, &from, &to).expect(&rt, "memory");
    let Some((word, times)) = found else {
        panic!(rt; "no word")
    };
    assert_eq!(rt; word.as_str(), "fig");
    assert_eq!(rt; times, 5);
}

type Changes = OrdMap<SignedSum<i64>>;

const CHANGES: [(i64, i64); 4] = [(-3, -30), (i64::MIN, 5), (4, 40), (0, -1)];

const IN_ORDER: &[(i64, i64)] = &[(i64::MIN, 5), (-3, -30), (0, -1), (4, 40)];

#[test]
fn a_map_of_numbers_with_a_sign(rt: HostRuntime) {
    let alloc = rt.alloc();
    let mut map: Changes = OrdMap::new();
    for (at, change) in CHANGES {
        let old = map.insert(alloc, at, change).expect(&rt, "memory");
        assert_eq!(rt; old, None);
    }
    let mut list = Vec::new(alloc);
    for entry in map.iter(alloc) {
        list.push(entry.expect(&rt, "memory")).expect(&rt, "memory");
    }
    assert_eq!(rt; list.as_slice(), IN_ORDER);
    let part = map.fold_range(alloc, &-3, &4).expect(&rt, "memory");
    assert_eq!(rt; part, 9);
    assert_eq!(rt; map.get(alloc, &-3).expect(&rt, "memory"), Some(-30));
}

type Coded = CodedMap<SumMax<i64>>;

const PAIRS: [(i64, u64); 5] = [(4, 40), (-3, 30), (i64::MIN, 5), (-3, 31), (0, 1)];

const SORTED: &[(i64, u64)] = &[(i64::MIN, 5), (-3, 31), (0, 1), (4, 40)];

const AROUND_0: &[(i64, u64)] = &[(-3, 31), (0, 1)];

const TOTALS: Totals = Totals {
    sum: 77,
    greatest: 40,
};

#[test]
fn a_coded_map_of_keys_with_a_sign(rt: HostRuntime) {
    let alloc = rt.alloc();
    let map: Coded = CodedMap::build_alone(alloc, &PAIRS).expect(&rt, "memory");
    let list = map.to_vec(alloc).expect(&rt, "memory");
    assert_eq!(rt; list.as_slice(), SORTED);
    assert!(rt; map.aug() == Some(&TOTALS));
    let part = map.slice(alloc, &-4, &3).expect(&rt, "memory");
    let list = part.to_vec(alloc).expect(&rt, "memory");
    assert_eq!(rt; list.as_slice(), AROUND_0);
}

/// The keys from -500 to 499 with their distances from 0, in some sixteen blocks.
fn distances<R: Abort>(rt: &R, alloc: Global) -> Coded {
    let mut list = Vec::new(alloc);
    for key in -500i64..500 {
        list.push((key, key.unsigned_abs())).expect(rt, "memory");
    }
    CodedMap::build_alone(alloc, &list).expect(rt, "memory")
}

const AROUND_BLOCKS: &[Option<u64>] = &[Some(500), None, Some(1), Some(0), Some(499), None];

#[test]
fn many_coded_keys_with_a_sign(rt: HostRuntime) {
    let alloc = rt.alloc();
    let map = distances(&rt, alloc);
    assert_eq!(rt; map.size(), 1000);
    let first = map.select(alloc, 0).expect(&rt, "memory");
    assert_eq!(rt; first, Some((-500, 500)));
    let found = map.get_many(alloc, &[-500, -501, -1, 0, 499, 500]);
    assert_eq!(rt; found.expect(&rt, "memory").as_slice(), AROUND_BLOCKS);
}
