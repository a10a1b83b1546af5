//! Each call of a map from intervals to values, on bookings counted by hand. Where memory is refused, a test ends here.

use aug_monoid::{First, Key, NoMemory, SatSum, Share, Span};
use interval_map::IntervalMap;
use std::alloc::Global;
use std::process::Abort;

/// The first and the last day of bookings, and their guests, in the order in which they are made; one is made twice.
const MADE: [(u64, u64, u64); 6] = [
    (12, 15, 5),
    (3, 6, 9),
    (1, 4, 1),
    (6, 9, 4),
    (3, 3, 3),
    (3, 6, 2),
];

/// The same in order.
const SORTED: &[(u64, u64, u64)] = &[(1, 4, 1), (3, 3, 3), (3, 6, 2), (6, 9, 4), (12, 15, 5)];

/// A map with one interval more, if its ends are in order.
fn add<R: Abort, E: Key>(
    rt: &R,
    alloc: Global,
    map: &mut IntervalMap<E, u64>,
    left: E,
    right: E,
    val: u64,
) {
    if left.cmp(&right).is_le() {
        let _old = map.insert(alloc, left, right, val).expect(rt, "memory");
    }
}

fn bookings_of<R: Abort>(rt: &R, alloc: Global, made: &[(u64, u64, u64)]) -> IntervalMap<u64, u64> {
    let mut map = IntervalMap::new();
    for (first, last, guests) in made {
        add(rt, alloc, &mut map, *first, *last, *guests);
    }
    map
}

fn all<R: Abort>(rt: &R, alloc: Global) -> IntervalMap<u64, u64> {
    bookings_of(rt, alloc, &MADE)
}

fn assert_hits<R: Abort>(
    rt: &R,
    hits: Result<Vec<(Span<u64>, u64)>, NoMemory>,
    booked: &[(u64, u64, u64)],
) {
    let hits = hits.expect(rt, "memory");
    assert_eq!(rt; hits.len(), booked.len());
    for (hit, one) in hits.iter().zip(booked) {
        assert_eq!(rt; (hit.0.left, hit.0.right, hit.1), *one);
    }
}

fn assert_map<R: Abort>(
    rt: &R,
    alloc: Global,
    map: &IntervalMap<u64, u64>,
    booked: &[(u64, u64, u64)],
) {
    assert_hits(rt, map.to_vec(alloc), booked);
    assert_eq!(rt; map.is_empty(), booked.is_empty());
}

#[test]
fn bookings_in_order(rt: HostRuntime) {
    assert_map(&rt, rt.alloc(), &all(&rt, rt.alloc()), SORTED);
    assert_map(&rt, rt.alloc(), &IntervalMap::new(), &[]);
}

fn three_at_once<R: Abort>(rt: &R, alloc: Global) -> IntervalMap<u64, u64> {
    let early = (Span { left: 1, right: 4 }, 1);
    let twice = (Span { left: 2, right: 2 }, 7);
    let last = (Span { left: 2, right: 2 }, 8);
    IntervalMap::from_pairs(alloc, &[twice, early, last]).expect(rt, "memory")
}

#[test]
fn bookings_made_at_once(rt: HostRuntime) {
    let map = three_at_once(&rt, rt.alloc());
    assert_eq!(&rt; map.len(), 2);
    assert_map(&rt, rt.alloc(), &map, &[(1, 4, 1), (2, 2, 8)]);
}

/// A day, and the bookings that have it.
const STABS: &[(u64, &[(u64, u64, u64)])] = &[
    (0, &[]),
    (1, &[(1, 4, 1)]),
    (3, &[(1, 4, 1), (3, 3, 3), (3, 6, 2)]),
    (6, &[(3, 6, 2), (6, 9, 4)]),
    (10, &[]),
    (15, &[(12, 15, 5)]),
    (16, &[]),
];

fn assert_stabs<R: Abort>(rt: &R, alloc: Global, map: &IntervalMap<u64, u64>) {
    for (day, booked) in STABS {
        assert_hits(rt, map.stab(alloc, day), booked);
        assert_eq!(rt;
            map.any(alloc, day).expect(rt, "memory"),
            !booked.is_empty()
        );
    }
}

#[test]
fn the_bookings_of_a_day(rt: HostRuntime) {
    assert_stabs(&rt, rt.alloc(), &all(&rt, rt.alloc()));
}

/// Two days, and the bookings that overlap the days from the first to the second.
const OVERLAPS: &[(u64, u64, &[(u64, u64, u64)])] = &[
    (0, 0, &[]),
    (4, 5, &[(1, 4, 1), (3, 6, 2)]),
    (9, 12, &[(6, 9, 4), (12, 15, 5)]),
    (10, 11, &[]),
    (0, 99, SORTED),
    (9, 6, &[(6, 9, 4)]),
];

fn assert_first<R: Abort>(
    rt: &R,
    first: Result<Option<(Span<u64>, u64)>, NoMemory>,
    booked: &[(u64, u64, u64)],
) {
    let first = match first.expect(rt, "memory") {
        Some((days, guests)) => Some((days.left, days.right, guests)),
        None => None,
    };
    assert_eq!(rt; first, booked.first().copied());
}

fn assert_overlaps<R: Abort>(rt: &R, alloc: Global, map: &IntervalMap<u64, u64>) {
    for (lo, hi, booked) in OVERLAPS {
        assert_hits(rt, map.overlapping(alloc, lo, hi), booked);
        let any = map.any_overlapping(alloc, lo, hi).expect(rt, "memory");
        assert_eq!(rt; any, !booked.is_empty());
        assert_first(rt, map.first_overlapping(alloc, lo, hi), booked);
    }
}

#[test]
fn the_bookings_that_overlap_some_days(rt: HostRuntime) {
    assert_overlaps(&rt, rt.alloc(), &all(&rt, rt.alloc()));
}

/// Two days, and the bookings that lie between them.
const CONTAINED: &[(u64, u64, &[(u64, u64, u64)])] = &[
    (3, 3, &[(3, 3, 3)]),
    (3, 8, &[(3, 3, 3), (3, 6, 2)]),
    (3, 9, &[(3, 3, 3), (3, 6, 2), (6, 9, 4)]),
    (0, 99, SORTED),
    (9, 3, &[]),
];

fn assert_contained<R: Abort>(rt: &R, alloc: Global, map: &IntervalMap<u64, u64>) {
    for (lo, hi, booked) in CONTAINED {
        assert_hits(rt, map.contained_in(alloc, lo, hi), booked);
    }
}

#[test]
fn the_bookings_between_two_days(rt: HostRuntime) {
    assert_contained(&rt, rt.alloc(), &all(&rt, rt.alloc()));
}

/// The guests of a booking, before it is removed and after.
fn guests_before_and_after<R: Abort>(
    rt: &R,
    alloc: Global,
    map: &mut IntervalMap<u64, u64>,
) -> (Option<u64>, Option<u64>, bool) {
    let old = map.remove(alloc, &3, &6).expect(rt, "memory");
    let gone = map.get(alloc, &3, &6).expect(rt, "memory");
    (old, gone, map.contains(alloc, &3, &3).expect(rt, "memory"))
}

#[test]
fn a_copy_is_left_alone_by_a_change(rt: HostRuntime) {
    let mut map = all(&rt, rt.alloc());
    let copy = map.share(rt.alloc()).expect(&rt, "memory");
    let guests = guests_before_and_after(&rt, rt.alloc(), &mut map);
    assert_eq!(&rt; guests, (Some(2), None, true));
    assert_map(&rt, rt.alloc(), &copy, SORTED);
}

/// Bookings of another house.
const OTHERS: [(u64, u64, u64); 2] = [(3, 6, 7), (4, 4, 1)];

fn assert_both<R: Abort>(
    rt: &R,
    alloc: Global,
    here: &IntervalMap<u64, u64>,
    there: &IntervalMap<u64, u64>,
) {
    let sums = here.union(alloc, there, &SatSum).expect(rt, "memory");
    assert_hits(
        rt,
        sums.overlapping(alloc, &3, &5),
        &[(1, 4, 1), (3, 3, 3), (3, 6, 9), (4, 4, 1)],
    );
    let kept = there.union(alloc, here, &First).expect(rt, "memory");
    assert_eq!(rt; kept.get(alloc, &3, &6).expect(rt, "memory"), Some(7));
    assert_map(
        rt,
        alloc,
        &there.difference(alloc, here).expect(rt, "memory"),
        &[(4, 4, 1)],
    );
}

#[test]
fn the_bookings_of_two_houses(rt: HostRuntime) {
    let others = bookings_of(&rt, rt.alloc(), &OTHERS);
    assert_both(&rt, rt.alloc(), &all(&rt, rt.alloc()), &others);
}

/// Floors that lifts serve, some of them below the ground.
fn lifts<R: Abort>(rt: &R, alloc: Global) -> IntervalMap<i64, u64> {
    let mut map = IntervalMap::new();
    add(rt, alloc, &mut map, -2, 3, 1);
    add(rt, alloc, &mut map, 0, 9, 2);
    add(rt, alloc, &mut map, -5, -3, 3);
    map
}

fn lifts_at<R: Abort>(rt: &R, alloc: Global, map: &IntervalMap<i64, u64>, floor: i64) -> Vec<u64> {
    let mut served = Vec::new(alloc);
    for (_floors, lift) in map.stab(alloc, &floor).expect(rt, "memory") {
        served.push(lift).expect(rt, "memory");
    }
    served
}

#[test]
fn intervals_with_signed_ends(rt: HostRuntime) {
    let map = lifts(&rt, rt.alloc());
    assert!(&rt; lifts_at(&rt, rt.alloc(), &map, -2).as_slice() == [1].as_slice());
    assert!(&rt; lifts_at(&rt, rt.alloc(), &map, 0).as_slice() == [1, 2].as_slice());
    assert!(&rt; lifts_at(&rt, rt.alloc(), &map, 10).is_empty());
}
