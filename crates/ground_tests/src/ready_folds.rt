//! The folds of `map_folds` at given entries.
use crate::instances::fold_of;
use aug_monoid::{Augment, Text};
use map_folds::{
    AllTrue, AnyTrue, CheckedSum, Count, FirstValue, Greatest, GreatestEntry, LastValue, Least,
    LeastEntry, LongestRun, Mean, Runs, SaturatingSum, SignedSum, SumCount, SumMaxMin, Triple,
};

// Their sum is 82.
const VALUES: &[(u64, u64)] = &[(1, 10), (3, 34), (4, 4), (5, 34)];

const NONE: &[(u64, u64)] = &[];

const TOO_GREAT: &[(u64, u64)] = &[(0, u64::MAX), (1, 1)];

const JUST: &[(u64, u64)] = &[(0, u64::MAX - 1), (1, 1)];

#[test]
fn a_sum_that_stops(rt: HostRuntime) {
    let few = fold_of::<HostRuntime, SaturatingSum<u64>>(&rt, rt.alloc(), VALUES);
    assert_eq!(rt; few, 82);
    let most = fold_of::<HostRuntime, SaturatingSum<u64>>(&rt, rt.alloc(), TOO_GREAT);
    assert_eq!(rt; most, u64::MAX);
}

#[test]
fn a_sum_that_is_none_above_64_bits(rt: HostRuntime) {
    let few = fold_of::<HostRuntime, CheckedSum<u64>>(&rt, rt.alloc(), VALUES);
    assert_eq!(rt; few, Some(82));
    let just = fold_of::<HostRuntime, CheckedSum<u64>>(&rt, rt.alloc(), JUST);
    assert_eq!(rt; just, Some(u64::MAX));
    let most = fold_of::<HostRuntime, CheckedSum<u64>>(&rt, rt.alloc(), TOO_GREAT);
    assert_eq!(rt; most, None);
}

const SIGNED: &[(u64, i64)] = &[(1, -5), (2, 3), (3, i64::MIN), (4, i64::MIN)];

#[test]
fn a_sum_with_a_sign(rt: HostRuntime) {
    // -5 + 3 - 2^63 - 2^63
    let sum = fold_of::<HostRuntime, SignedSum<u64>>(&rt, rt.alloc(), SIGNED);
    assert_eq!(rt; sum, -18446744073709551618);
}

#[test]
fn the_least_and_the_greatest_value(rt: HostRuntime) {
    let least = fold_of::<HostRuntime, Least<u64, u64>>(&rt, rt.alloc(), VALUES);
    let greatest = fold_of::<HostRuntime, Greatest<u64, u64>>(&rt, rt.alloc(), VALUES);
    assert_eq!(rt; (least, greatest), (Some(4), Some(34)));
    let least = fold_of::<HostRuntime, Least<u64, i64>>(&rt, rt.alloc(), SIGNED);
    let greatest = fold_of::<HostRuntime, Greatest<u64, i64>>(&rt, rt.alloc(), SIGNED);
    assert_eq!(rt; (least, greatest), (Some(i64::MIN), Some(3)));
    let none = fold_of::<HostRuntime, Greatest<u64, u64>>(&rt, rt.alloc(), NONE);
    assert_eq!(rt; none, None);
}

#[test]
fn the_sum_the_greatest_and_the_least(rt: HostRuntime) {
    let some = fold_of::<HostRuntime, SumMaxMin<u64>>(&rt, rt.alloc(), VALUES);
    assert_eq!(rt;
        (some.totals.sum, some.totals.greatest, some.least),
        (82, 34, 4)
    );
    let none = fold_of::<HostRuntime, SumMaxMin<u64>>(&rt, rt.alloc(), NONE);
    assert_eq!(rt;
        (none.totals.sum, none.totals.greatest, none.least),
        (0, 0, u64::MAX)
    );
}

#[test]
fn of_equal_values_the_entry_of_the_least_key(rt: HostRuntime) {
    let greatest = fold_of::<HostRuntime, GreatestEntry<u64, u64>>(&rt, rt.alloc(), VALUES);
    assert_eq!(rt; greatest, Some((3, 34)));
    let least = fold_of::<HostRuntime, LeastEntry<u64, i64>>(&rt, rt.alloc(), SIGNED);
    assert_eq!(rt; least, Some((3, i64::MIN)));
}

#[test]
fn the_values_at_both_ends(rt: HostRuntime) {
    let first = fold_of::<HostRuntime, FirstValue<u64, u64>>(&rt, rt.alloc(), VALUES);
    let last = fold_of::<HostRuntime, LastValue<u64, u64>>(&rt, rt.alloc(), VALUES);
    assert_eq!(rt; (first, last), (Some(10), Some(34)));
    let none = fold_of::<HostRuntime, LastValue<u64, u64>>(&rt, rt.alloc(), NONE);
    assert_eq!(rt; none, None);
}

#[test]
fn how_many_there_are(rt: HostRuntime) {
    let four = fold_of::<HostRuntime, Count<u64, i64>>(&rt, rt.alloc(), SIGNED);
    assert_eq!(rt; four, 4);
}

#[test]
fn a_mean_is_rounded_down(rt: HostRuntime) {
    let mean = fold_of::<HostRuntime, Mean<u64>>(&rt, rt.alloc(), VALUES);
    assert_eq!(rt; mean, SumCount { sum: 82, count: 4 });
    assert_eq!(rt; mean.mean(), Some(20));
    let most = fold_of::<HostRuntime, Mean<u64>>(&rt, rt.alloc(), TOO_GREAT);
    assert_eq!(rt; most.mean(), Some(9223372036854775808));
    let none = fold_of::<HostRuntime, Mean<u64>>(&rt, rt.alloc(), NONE);
    assert_eq!(rt; none.mean(), None);
}

const DAYS: &[(u8, bool)] = &[
    (1, true),
    (2, true),
    (3, false),
    (4, true),
    (5, true),
    (6, true),
    (7, false),
    (8, true),
];

const GOOD: &[(u8, bool)] = &[(1, true), (2, true)];

#[test]
fn some_and_all_of_truth_values(rt: HostRuntime) {
    let any = fold_of::<HostRuntime, AnyTrue<u8>>(&rt, rt.alloc(), DAYS);
    let all = fold_of::<HostRuntime, AllTrue<u8>>(&rt, rt.alloc(), DAYS);
    assert!(rt; any && !all);
    let any = fold_of::<HostRuntime, AnyTrue<u8>>(&rt, rt.alloc(), &[]);
    let all = fold_of::<HostRuntime, AllTrue<u8>>(&rt, rt.alloc(), &[]);
    assert!(rt; !any && all);
}

#[test]
fn the_longest_run(rt: HostRuntime) {
    let runs = fold_of::<HostRuntime, LongestRun<u8>>(&rt, rt.alloc(), DAYS);
    let wanted = Runs {
        whole: false,
        front: 2,
        back: 1,
        longest: 3,
    };
    assert_eq!(rt; runs, wanted);
    let runs = fold_of::<HostRuntime, LongestRun<u8>>(&rt, rt.alloc(), GOOD);
    let wanted = Runs {
        whole: true,
        front: 2,
        back: 2,
        longest: 2,
    };
    assert_eq!(rt; runs, wanted);
}

type Three = Triple<SaturatingSum<u64>, Greatest<u64, u64>, Count<u64, u64>>;

#[test]
fn three_folds_at_once(rt: HostRuntime) {
    let three = fold_of::<HostRuntime, Three>(&rt, rt.alloc(), VALUES);
    assert_eq!(rt; three, (82, Some(34), 4));
}

#[test]
fn folds_that_never_refuse(rt: HostRuntime) {
    assert!(rt; Three::is_total() && LongestRun::<Text>::is_total());
    assert!(rt; LeastEntry::<u8, i64>::is_total() && !LeastEntry::<Text, i64>::is_total());
    assert!(rt; !Greatest::<u64, Text>::is_total());
}
