//! Points in the plane, with sums and lists that were reckoned by hand. Where memory is refused, a test ends here.
ghost use Rattle.std.specs.Prelude.{◌+◌, ◌≤◌, length};
ghost use Rattle.aug_monoid.specs.Fresh.{IsFresh};

use aug_monoid::{Augment, Leaf, NoMemory, Pair64, Share, Steps};
use fork_join::{Cut, FreeGate};
use range_tree::{Places, Point, Points, Rect, Rows, Total, points_cross};
use row_leaf::RowLeaf;
use std::alloc::Global;
use std::marker::{Brand, Sync};
use std::process::Abort;
use std::sync::ledger::{Blank, Ledger};
use std::thread::Threads;

/// Two columns and two rows of points with their weights, one of them set twice.
const FIVE: [(u64, u64, u64); 6] = [
    (1, 1, 10),
    (1, 2, 20),
    (2, 1, 9),
    (3, 2, 40),
    (1, 5, 50),
    (2, 1, 30),
];

/// A point at each corner of the plane.
const CORNERS: [(u64, u64, u64); 4] = [
    (0, 0, 1),
    (0, u64::MAX, u64::MAX),
    (u64::MAX, 0, 2),
    (u64::MAX, u64::MAX, 3),
];

/// The ends of a rectangle by x and by y, and the sum and the count of its points.
type Row = ((u64, u64, u64, u64), u64, u64);

fn point(row: (u64, u64, u64)) -> Point {
    let (x, y, weight) = row;
    Point { x, y, weight }
}

fn rect(ends: (u64, u64, u64, u64)) -> Rect {
    let (x1, x2, y1, y2) = ends;
    Rect { x1, x2, y1, y2 }
}

fn listed<R: Abort>(rt: &R, alloc: Global, rows: &[(u64, u64, u64)]) -> Vec<Point> {
    let mut list = Vec::new(alloc);
    for row in rows {
        list.push(point(*row)).expect(rt, "memory");
    }
    list
}

fn points_of<R: Threads + Abort + Sync>(rt: &R, alloc: Global, rows: &[(u64, u64, u64)]) -> Points {
    let list = listed(rt, alloc, rows);
    let points = Points::new().add(rt, alloc, &FreeGate, Cut::new(2, 1), &list);
    points.expect(rt, "memory")
}

fn assert_sums<R: Abort>(rt: &R, alloc: Global, points: &Points, rows: &[Row]) {
    for (ends, sum, count) in rows {
        let total = points.sum(alloc, rect(*ends)).expect(rt, "memory");
        assert_eq!(rt; (total.sum, total.count), (*sum, *count));
    }
}

fn assert_list<R: Abort>(
    rt: &R,
    alloc: Global,
    points: &Points,
    ends: (u64, u64, u64, u64),
    wanted: &[(u64, u64, u64)],
) {
    let found = points.list(alloc, rect(ends)).expect(rt, "memory");
    assert!(rt; found == listed(rt, alloc, wanted));
}

const SUMS: &[Row] = &[
    ((1, 1, 0, u64::MAX), 80, 3),
    ((0, u64::MAX, 1, 1), 40, 2),
    ((1, 2, 2, 5), 70, 2),
    ((2, 1, 0, 9), 0, 0),
    ((0, 9, 2, 1), 0, 0),
];

#[test]
fn sums_of_columns_and_rows(rt: HostRuntime) {
    let points = points_of(&rt, rt.alloc(), &FIVE);
    assert_eq!(rt; (points.size(), points.map().size()), (5, 5));
    assert_sums(&rt, rt.alloc(), &points, SUMS);
}

/// A point in each of so many columns, with row and weight by chance.
fn scattered<R: Abort>(rt: &R, alloc: Global, columns: u64) -> Vec<Point> {
    let mut list = Vec::new(alloc);
    let mut state = 1u64;
    for x in 0..columns {
        state = state
            .wrapping_mul(6364136223846793005)
            .wrapping_add(1442695040888963407);
        let y = state >> 54;
        let weight = (state >> 40) % 100;
        list.push(Point { x, y, weight }).expect(rt, "memory");
    }
    list
}

/// The sum and the count of the points in a rectangle, by a walk over all.
fn walked(points: &[Point], rect: Rect) -> (u64, u64) {
    let mut sum = 0u64;
    let mut count = 0u64;
    for point in points {
        if rect.x1 <= point.x && point.x <= rect.x2 && rect.y1 <= point.y && point.y <= rect.y2 {
            sum = sum.saturating_add(point.weight);
            count = count.saturating_add(1);
        }
    }
    (sum, count)
}

/// The total in a rectangle of at most ten million points, in a tenth of the steps of a walk over them. No test can read a
/// counter, so this clause counts.
fn sum_of_many<C: Ledger>(
    alloc: Global,
    points: &Points,
    rect: Rect,
    steps: &mut Steps<C>,
) -> Result<Total, NoMemory>
    ensures { length points.now ≤ 10000000 → steps.new ≤ steps.old + 1000000 }
{
    points.sum_counted(alloc, rect, steps)
}

fn assert_counted<R: Threads + Abort + Sync, C: Ledger>(rt: &R, alloc: Global, blank: Blank)
    requires { IsFresh C.name C.parts blank }
{
    let list = scattered(rt, alloc, 2000);
    let points = Points::new().add(rt, alloc, &FreeGate, Cut::new(2, 1), &list);
    let within = rect((100, 1700, 50, 700));
    let mut steps = Steps::<C>::start(blank);
    let total = sum_of_many(alloc, &points.expect(rt, "memory"), within, &mut steps);
    let total = total.expect(rt, "memory");
    assert_eq!(rt; (total.sum, total.count), walked(&list, within));
}

fn assert_counts<R: Threads + Abort + Sync>(rt: &R, alloc: Global) {
    assert_counted::<R, Brand>(rt, alloc, Blank::new(1));
}

#[test]
fn a_sum_that_counts_is_that_of_a_walk(rt: HostRuntime) {
    assert_counts(&rt, rt.alloc());
}

const LOW: &[(u64, u64, u64)] = &[(1, 1, 10), (1, 2, 20), (2, 1, 30)];

#[test]
fn lists_are_by_x_and_then_y(rt: HostRuntime) {
    let points = points_of(&rt, rt.alloc(), &FIVE);
    assert_list(&rt, rt.alloc(), &points, (1, 2, 0, 2), LOW);
    assert_list(&rt, rt.alloc(), &points, (2, 1, 0, 9), &[]);
}

/// The points without the one at (1, 2), and without one at (9, 9), which isn't there.
fn fewer<R: Threads + Abort + Sync>(rt: &R, alloc: Global, points: &Points) -> Points {
    let places = [(1, 2), (9, 9)].map(|(first, second)| Pair64 { first, second });
    let fewer = points.del(rt, alloc, &FreeGate, Cut::new(2, 1), &places);
    fewer.expect(rt, "memory")
}

const AFTER: &[Row] = &[((0, 9, 0, 9), 130, 4)];

const BEFORE: &[Row] = &[((0, 9, 0, 9), 150, 5)];

#[test]
fn removed_points_leave_the_others(rt: HostRuntime) {
    let points = points_of(&rt, rt.alloc(), &FIVE);
    let left = fewer(&rt, rt.alloc(), &points);
    assert_sums(&rt, rt.alloc(), &left, AFTER);
    assert_sums(&rt, rt.alloc(), &points, BEFORE);
}

/// The points of `FIVE`, by x and then by y.
const BY_X: &[(u64, u64, u64)] = &[(1, 1, 10), (1, 2, 20), (1, 5, 50), (2, 1, 30), (3, 2, 40)];

#[test]
fn points_are_made_at_once(rt: HostRuntime) {
    let list = listed(&rt, rt.alloc(), &FIVE);
    let points = Points::from_points(rt.alloc(), &list).expect(&rt, "memory");
    assert_list(&rt, rt.alloc(), &points, (0, 9, 0, 9), BY_X);
    assert_sums(&rt, rt.alloc(), &points, SUMS);
}

#[test]
fn points_are_added_and_removed_on_one_thread(rt: HostRuntime) {
    let alloc = rt.alloc();
    let list = listed(&rt, alloc, &FIVE);
    let points = Points::new().add_alone(alloc, &list).expect(&rt, "memory");
    assert_list(&rt, alloc, &points, (0, 9, 0, 9), BY_X);
    let places = [(1, 2), (9, 9)].map(|(first, second)| Pair64 { first, second });
    let left = points.del_alone(alloc, &places).expect(&rt, "memory");
    assert_sums(&rt, alloc, &left, AFTER);
    let again = left.add_alone(alloc, &list).expect(&rt, "memory");
    assert_list(&rt, alloc, &again, (0, 9, 0, 9), BY_X);
    assert_sums(&rt, alloc, &points, BEFORE);
}

/// A point that is there already, with another weight, and a new one.
const TWO_MORE: &[(u64, u64, u64)] = &[(4, 4, 60), (1, 2, 25)];

/// The points of `FIVE` and then of `TWO_MORE`, by x and then by y.
const SIX: &[(u64, u64, u64)] = &[
    (1, 1, 10),
    (1, 2, 25),
    (1, 5, 50),
    (2, 1, 30),
    (3, 2, 40),
    (4, 4, 60),
];

#[test]
fn points_are_added_to_those_that_are_given_up(rt: HostRuntime) {
    let alloc = rt.alloc();
    let list = listed(&rt, alloc, &FIVE);
    let points = Points::new()
        .add_into_alone(alloc, &list)
        .expect(&rt, "memory");
    let before = points.share(alloc).expect(&rt, "memory");
    let more = listed(&rt, alloc, TWO_MORE);
    let all = points.add_into(&rt, alloc, &FreeGate, Cut::new(2, 1), &more);
    assert_list(&rt, alloc, &all.expect(&rt, "memory"), (0, 9, 0, 9), SIX);
    assert_list(&rt, alloc, &before, (0, 9, 0, 9), BY_X);
}

/// The sum and the count without the point at (1, 5), with another weight at (1, 2).
const CHANGED: &[Row] = &[((0, 9, 0, 9), 105, 4), ((0, 9, 2, 2), 65, 2)];

#[test]
fn a_point_is_set_and_one_removed_in_place(rt: HostRuntime) {
    let alloc = rt.alloc();
    let mut points = points_of(&rt, alloc, &FIVE);
    let before = points.share(alloc).expect(&rt, "memory");
    let set = points
        .insert(alloc, point((1, 2, 25)))
        .expect(&rt, "memory");
    let gone = points.remove(alloc, 1, 5).expect(&rt, "memory");
    let none = points.remove(alloc, 1, 5).expect(&rt, "memory");
    assert_eq!(rt; (set, gone, none), (Some(20), Some(50), None));
    assert_sums(&rt, alloc, &points, CHANGED);
    assert_sums(&rt, alloc, &before, BEFORE);
}

/// The points of a list in even columns, or in odd ones.
fn in_columns<R: Abort>(rt: &R, alloc: Global, list: &[Point], remainder: u64) -> Vec<Point> {
    let mut some = Vec::new(alloc);
    for point in list {
        if point.x % 2 == remainder {
            some.push(*point).expect(rt, "memory");
        }
    }
    some
}

#[test]
fn points_are_added_between_as_many(rt: HostRuntime) {
    let alloc = rt.alloc();
    let list = scattered(&rt, alloc, 3000);
    let even = in_columns(&rt, alloc, &list, 0);
    let odd = in_columns(&rt, alloc, &list, 1);
    let points = Points::from_points(alloc, &even).expect(&rt, "memory");
    let all = points.add_alone(alloc, &odd).expect(&rt, "memory");
    let ends = (100, 2700, 50, 700);
    let (sum, count) = walked(&list, rect(ends));
    assert_sums(&rt, alloc, &all, &[(ends, sum, count)]);
}

#[test]
fn points_of_a_rectangle_are_counted(rt: HostRuntime) {
    let points = points_of(&rt, rt.alloc(), &FIVE);
    for (ends, _, count) in SUMS {
        let found = points.count(rt.alloc(), rect(*ends));
        assert_eq!(rt; found.expect(&rt, "memory"), *count);
    }
}

/// Places, and the weight of the point there.
const AT: &[(u64, u64, Option<u64>)] = &[
    (2, 1, Some(30)),
    (1, 5, Some(50)),
    (5, 1, None),
    (0, 0, None),
    (u64::MAX, u64::MAX, None),
];

#[test]
fn points_are_looked_up(rt: HostRuntime) {
    let points = points_of(&rt, rt.alloc(), &FIVE);
    for (x, y, weight) in AT {
        assert_eq!(rt; points.get(rt.alloc(), *x, *y), *weight);
    }
}

#[test]
fn a_share_of_points_has_their_sum(rt: HostRuntime) {
    let points = points_of(&rt, rt.alloc(), &FIVE);
    let share = points.share(rt.alloc()).expect(&rt, "memory");
    assert_sums(&rt, rt.alloc(), &share, BEFORE);
}

const CORNER_SUMS: &[Row] = &[
    ((0, u64::MAX, 0, u64::MAX), u64::MAX, 4),
    ((u64::MAX, u64::MAX, 0, u64::MAX), 5, 2),
    ((0, u64::MAX, u64::MAX, u64::MAX), u64::MAX, 2),
];

const LAST_CORNER: &[(u64, u64, u64)] = &[(u64::MAX, u64::MAX, 3)];

#[test]
fn sums_saturate_at_the_ends_of_the_plane(rt: HostRuntime) {
    let points = points_of(&rt, rt.alloc(), &CORNERS);
    assert_sums(&rt, rt.alloc(), &points, CORNER_SUMS);
    let most = u64::MAX;
    assert_list(
        &rt,
        rt.alloc(),
        &points,
        (most, most, most, most),
        LAST_CORNER,
    );
}

/// A square of 100 columns and 100 rows of points whose weights are 1.
fn square<R: Abort>(rt: &R, alloc: Global) -> Vec<(u64, u64, u64)> {
    let mut rows = Vec::new(alloc);
    for place in 0..10000 {
        rows.push((place / 100, place % 100, 1))
            .expect(rt, "memory");
    }
    rows
}

const INNER: &[Row] = &[((10, 39, 20, 79), 1800, 1800)];

#[test]
fn a_rectangle_of_a_square_of_10000_points(rt: HostRuntime) {
    let points = points_of(&rt, rt.alloc(), &square(&rt, rt.alloc()));
    assert_sums(&rt, rt.alloc(), &points, INNER);
    let found = points.list(rt.alloc(), rect((10, 39, 20, 79)));
    assert!(rt; found.expect(&rt, "memory").len() == 1800);
}

/// The row of a point, from a share of its rows.
fn shared_row<R: Abort>(rt: &R, alloc: Global) -> Option<(Pair64, u64)> {
    let place = Pair64 {
        first: 4,
        second: 7,
    };
    let rows = Places::base(alloc, &place, &8).expect(rt, "memory");
    let share = rows.share(alloc).expect(rt, "memory");
    share.map().select(alloc, 0).expect(rt, "memory")
}

#[test]
fn a_share_of_rows_has_their_point(rt: HostRuntime) {
    let row = Pair64 {
        first: 7,
        second: 4,
    };
    assert_eq!(rt; shared_row(&rt, rt.alloc()), Some((row, 8)));
}

/// The first and the last point by rows, and how many there are.
type Ends = (Option<(Pair64, u64)>, Option<(Pair64, u64)>, u64);

fn ends_by_rows<R: Abort>(rt: &R, alloc: Global, points: &Points) -> Option<Ends> {
    let Some(rows) = points.rows() else {
        return None;
    };
    points_cross(points, rows);
    let number = rows.map().size();
    let first = rows.map().select(alloc, 0).expect(rt, "memory");
    let last = rows.map().select(alloc, number.saturating_sub(1));
    Some((first, last.expect(rt, "memory"), number))
}

fn row(first: u64, second: u64, weight: u64) -> Option<(Pair64, u64)> {
    Some((Pair64 { first, second }, weight))
}

#[test]
fn the_points_stand_by_rows_too(rt: HostRuntime) {
    let points = points_of(&rt, rt.alloc(), &FIVE);
    let ends = (row(1, 1, 10), row(5, 1, 50), 5);
    assert_eq!(rt; ends_by_rows(&rt, rt.alloc(), &points), Some(ends));
    assert_eq!(rt; ends_by_rows(&rt, rt.alloc(), &Points::new()), None);
}

/// The rows of a block of two points.
fn rows_of_two<R: Abort>(rt: &R, alloc: Global) -> Option<Rows> {
    let low = Pair64 {
        first: 1,
        second: 2,
    };
    let high = Pair64 {
        first: 2,
        second: 1,
    };
    let leaf = RowLeaf::from_entries(alloc, &[(low, 10), (high, 20)]).expect(rt, "memory");
    Places::fold_at_once(alloc, &leaf).expect(rt, "memory")
}

// A block whose rows are not made at once has them made of each of its points, one union after another.
#[test]
fn the_rows_of_a_block_are_made_at_once(rt: HostRuntime) {
    assert!(rt; rows_of_two(&rt, rt.alloc()).is_some());
}
