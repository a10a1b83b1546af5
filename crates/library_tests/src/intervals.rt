//! Each call on a set that has nested intervals, equal ones, and ones that share an end. Where memory is refused, a
//! test ends here.
ghost use Rattle.aug_monoid.specs.Fresh.{IsFresh};

use aug_monoid::{NoMemory, Pair64, Share, Steps};
use interval_map::Intervals;
use std::alloc::Global;
use std::marker::Brand;
use std::process::Abort;
use std::sync::ledger::{Blank, Ledger};

/// Intervals in the order in which they are added, one of them twice.
const ENDS: [(u64, u64); 7] = [
    (7, u64::MAX),
    (3, 9),
    (2, 3),
    (0, 0),
    (3, 3),
    (4, 5),
    (3, 9),
];

/// The set with one interval more, if its ends are in order.
fn with_one<R: Abort>(rt: &R, alloc: Global, intervals: Intervals, ends: (u64, u64)) -> Intervals {
    let (left, right) = ends;
    if left <= right {
        intervals.add(alloc, left, right).expect(rt, "memory")
    } else {
        intervals
    }
}

/// The set of some intervals.
fn set_of<R: Abort>(rt: &R, alloc: Global, ends: &[(u64, u64)]) -> Intervals {
    let mut intervals = Intervals::new();
    for pair in ends {
        intervals = with_one(rt, alloc, intervals, *pair);
    }
    intervals
}

/// The set of the intervals.
fn all<R: Abort>(rt: &R, alloc: Global) -> Intervals {
    set_of(rt, alloc, &ENDS)
}

fn assert_hits<R: Abort>(rt: &R, hits: Result<Vec<Pair64>, NoMemory>, ends: &[(u64, u64)]) {
    let hits = hits.expect(rt, "memory");
    assert_eq!(rt; hits.len(), ends.len());
    for (hit, pair) in hits.iter().zip(ends) {
        assert_eq!(rt; (hit.first, hit.second), *pair);
    }
}

/// A number, and the ends of the intervals that have it.
const STABS: &[(u64, &[(u64, u64)])] = &[
    (0, &[(0, 0)]),
    (1, &[]),
    (2, &[(2, 3)]),
    (3, &[(2, 3), (3, 3), (3, 9)]),
    (5, &[(3, 9), (4, 5)]),
    (6, &[(3, 9)]),
    (9, &[(3, 9), (7, u64::MAX)]),
    (10, &[(7, u64::MAX)]),
    (u64::MAX, &[(7, u64::MAX)]),
];

fn assert_stabs<R: Abort>(rt: &R, alloc: Global, intervals: &Intervals) {
    for (p, ends) in STABS {
        assert_hits(rt, intervals.stab(alloc, *p), ends);
        assert_eq!(rt; intervals.any(alloc, *p), !ends.is_empty());
    }
}

#[test]
fn the_intervals_that_have_a_number(rt: HostRuntime) {
    assert_stabs(&rt, rt.alloc(), &all(&rt, rt.alloc()));
}

/// A range, and the ends of the intervals that overlap it.
const OVERLAPS: &[(u64, u64, &[(u64, u64)])] = &[
    (1, 1, &[]),
    (0, 1, &[(0, 0)]),
    (3, 4, &[(2, 3), (3, 3), (3, 9), (4, 5)]),
    (6, u64::MAX, &[(3, 9), (7, u64::MAX)]),
    (9, 7, &[(3, 9), (7, u64::MAX)]),
];

fn assert_first<R: Abort>(rt: &R, first: Result<Option<Pair64>, NoMemory>, ends: &[(u64, u64)]) {
    let first = match first.expect(rt, "memory") {
        Some(hit) => Some((hit.first, hit.second)),
        None => None,
    };
    assert_eq!(rt; first, ends.first().copied());
}

fn assert_overlaps<R: Abort>(rt: &R, alloc: Global, intervals: &Intervals) {
    for (lo, hi, ends) in OVERLAPS {
        assert_hits(rt, intervals.overlap(alloc, *lo, *hi), ends);
        assert_eq!(rt;
            intervals.any_overlapping(alloc, *lo, *hi),
            !ends.is_empty()
        );
        assert_first(rt, intervals.first_overlapping(alloc, *lo, *hi), ends);
    }
}

#[test]
fn the_intervals_that_overlap_a_range(rt: HostRuntime) {
    assert_overlaps(&rt, rt.alloc(), &all(&rt, rt.alloc()));
}

/// A range, and the ends of the intervals that lie in it.
const CONTAINED: &[(u64, u64, &[(u64, u64)])] = &[
    (0, 0, &[(0, 0)]),
    (1, 1, &[]),
    (2, 3, &[(2, 3), (3, 3)]),
    (3, 8, &[(3, 3), (4, 5)]),
    (3, 9, &[(3, 3), (3, 9), (4, 5)]),
    (4, u64::MAX, &[(4, 5), (7, u64::MAX)]),
    (0, u64::MAX, SORTED),
    (u64::MAX, u64::MAX, &[]),
    (9, 3, &[]),
];

fn assert_contained<R: Abort>(rt: &R, alloc: Global, intervals: &Intervals) {
    for (lo, hi, ends) in CONTAINED {
        assert_hits(rt, intervals.contained_in(alloc, *lo, *hi), ends);
    }
}

#[test]
fn the_intervals_that_lie_in_a_range(rt: HostRuntime) {
    assert_contained(&rt, rt.alloc(), &all(&rt, rt.alloc()));
}

/// The ends of some intervals, and of the parts of the line that they cover.
const MERGED: &[(&[(u64, u64)], &[(u64, u64)])] = &[
    (&[], &[]),
    (&[(4, 4)], &[(4, 4)]),
    (&ENDS, &[(0, 0), (2, u64::MAX)]),
    (&[(3, 4), (1, 2)], &[(1, 2), (3, 4)]),
    (&[(1, 9), (2, 3), (5, 6), (8, 8)], &[(1, 9)]),
    (
        &[(1, 2), (2, 4), (6, 6), (9, 12), (8, 10), (9, 9)],
        &[(1, 4), (6, 6), (8, 12)],
    ),
    (&[(0, u64::MAX), (u64::MAX, u64::MAX)], &[(0, u64::MAX)]),
];

fn assert_merged<R: Abort>(rt: &R, alloc: Global) {
    for (ends, parts) in MERGED {
        assert_hits(rt, set_of(rt, alloc, ends).merged(alloc), parts);
    }
}

#[test]
fn the_parts_of_the_line_that_intervals_cover(rt: HostRuntime) {
    assert_merged(&rt, rt.alloc());
}

/// All intervals in order.
const SORTED: &[(u64, u64)] = &[(0, 0), (2, 3), (3, 3), (3, 9), (4, 5), (7, u64::MAX)];

/// Intervals of which the set has three, and others that share one end with one of its own.
const OTHERS: [(u64, u64); 5] = [(7, u64::MAX), (3, 4), (4, 5), (0, 1), (3, 3)];

/// Those of the set that are not among the others.
const REST: &[(u64, u64)] = &[(0, 0), (2, 3), (3, 9)];

/// The others that the set hasn't.
const NEW: &[(u64, u64)] = &[(0, 1), (3, 4)];

/// Those that both have.
const BOTH: &[(u64, u64)] = &[(3, 3), (4, 5), (7, u64::MAX)];

fn assert_set<R: Abort>(
    rt: &R,
    alloc: Global,
    set: Result<Intervals, NoMemory>,
    ends: &[(u64, u64)],
) {
    let set = set.expect(rt, "memory");
    assert_hits(rt, set.overlap(alloc, 0, u64::MAX), ends);
}

fn assert_differences<R: Abort>(rt: &R, alloc: Global, here: &Intervals, there: &Intervals) {
    assert_set(rt, alloc, here.difference(alloc, there), REST);
    assert_set(rt, alloc, there.difference(alloc, here), NEW);
    assert_set(rt, alloc, here.difference(alloc, &Intervals::new()), SORTED);
    assert_set(rt, alloc, Intervals::new().difference(alloc, here), &[]);
}

#[test]
fn the_intervals_that_another_set_has_not(rt: HostRuntime) {
    let others = set_of(&rt, rt.alloc(), &OTHERS);
    assert_differences(&rt, rt.alloc(), &all(&rt, rt.alloc()), &others);
}

fn assert_intersections<R: Abort>(rt: &R, alloc: Global, here: &Intervals, there: &Intervals) {
    assert_set(rt, alloc, here.intersection(alloc, there), BOTH);
    assert_set(rt, alloc, there.intersection(alloc, here), BOTH);
    assert_set(rt, alloc, here.intersection(alloc, &Intervals::new()), &[]);
}

#[test]
fn the_intervals_that_two_sets_have(rt: HostRuntime) {
    let others = set_of(&rt, rt.alloc(), &OTHERS);
    assert_intersections(&rt, rt.alloc(), &all(&rt, rt.alloc()), &others);
}

/// The sizes of a set without an interval, and of that without one that it hasn't.
fn sizes_without<R: Abort>(rt: &R, alloc: Global, intervals: &Intervals) -> (u64, u64) {
    let smaller = intervals.del(alloc, 3, 3).expect(rt, "memory");
    let same = smaller.del(alloc, 3, 4).expect(rt, "memory");
    (smaller.size(), same.size())
}

#[test]
fn a_removal_leaves_the_set(rt: HostRuntime) {
    let intervals = all(&rt, rt.alloc());
    assert_eq!(rt; sizes_without(&rt, rt.alloc(), &intervals), (5, 5));
    assert_eq!(rt; (intervals.size(), intervals.map().size()), (6, 6));
}

const AT_3: &[(u64, u64)] = &[(2, 3), (3, 3), (3, 9)];

#[test]
fn a_share_has_the_same_intervals(rt: HostRuntime) {
    let share = all(&rt, rt.alloc()).share(rt.alloc()).expect(&rt, "memory");
    assert_hits(&rt, share.stab(rt.alloc(), 3), AT_3);
}

fn assert_counted<R: Abort, C: Ledger>(rt: &R, alloc: Global, intervals: &Intervals, blank: Blank)
    requires { IsFresh C.name C.parts blank }
{
    let mut tests = Steps::<C>::start(blank);
    assert_hits(rt, intervals.stab_counted(alloc, 3, &mut tests), AT_3);
    assert_hits(rt, intervals.overlap_counted(alloc, 3, 3, &mut tests), AT_3);
}

fn assert_counts<R: Abort>(rt: &R, alloc: Global) {
    assert_counted::<R, Brand>(rt, alloc, &all(rt, alloc), Blank::new(1));
}

#[test]
fn calls_that_count_answer_the_same(rt: HostRuntime) {
    assert_counts(&rt, rt.alloc());
}
