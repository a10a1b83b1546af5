//! Sets of points.

use crate::checksum::Checksum;
use crate::numbers::Numbers;
use crate::timed::{Timed, since};
use anyhow::Result;
use aug_monoid::NoMemory;
use range_tree::{Point, Points, Rect};
use std::alloc::Global;
use std::rt::Clock;
use std::time::Instant;

/// Coordinates are below this.
const SIDE: u64 = 1_000_000;

/// Each end of a wide rectangle is less than this far from its side.
const MARGIN: u64 = 200_000;

/// All places.
const ALL: Rect = Rect {
    x1: 0,
    x2: u64::MAX,
    y1: 0,
    y2: u64::MAX,
};

// As many random points as are wanted.
fn random_points(alloc: Global, numbers: &mut Numbers, count: u64) -> Result<Vec<Point>, NoMemory> {
    let mut points = Vec::new(alloc);
    for _ in 0..count {
        points.push(Point {
            x: numbers.below(SIDE),
            y: numbers.below(SIDE),
            weight: numbers.below(1000),
        })?;
    }
    Ok(points)
}

// The checksum of all points of a set.
fn checksum_of(alloc: Global, points: &Points) -> Result<u64, NoMemory> {
    let mut checksum = Checksum::new();
    for point in points.list(alloc, ALL)? {
        checksum.add(point.x);
        checksum.add(point.y);
        checksum.add(point.weight);
    }
    Ok(checksum.sum())
}

/// Makes a set of many points at once.
pub(crate) fn time_at_once(rt: &impl Clock, alloc: Global, size: u64, seed: u64) -> Result<Timed> {
    let list = random_points(alloc, &mut Numbers::new(seed), size)?;
    let start = Instant::now(rt)?;
    let points = Points::from_points(alloc, &list)?;
    let nanoseconds = since(rt, start)?;
    Ok(Timed {
        checksum: checksum_of(alloc, &points)?,
        nanoseconds,
    })
}

/// Adds as many points as there are in one batch.
pub(crate) fn time_added(rt: &impl Clock, alloc: Global, size: u64, seed: u64) -> Result<Timed> {
    let mut numbers = Numbers::new(seed);
    let points = Points::from_points(alloc, &random_points(alloc, &mut numbers, size)?)?;
    let more = random_points(alloc, &mut numbers, size)?;
    let start = Instant::now(rt)?;
    let all = points.add_alone(alloc, &more)?;
    let nanoseconds = since(rt, start)?;
    Ok(Timed {
        checksum: checksum_of(alloc, &all)?,
        nanoseconds,
    })
}

// A rectangle with more than half of the columns and rows.
fn wide_rect(numbers: &mut Numbers) -> Rect {
    let last = SIDE - MARGIN;
    Rect {
        x1: numbers.below(MARGIN),
        x2: numbers.below(MARGIN).saturating_add(last),
        y1: numbers.below(MARGIN),
        y2: numbers.below(MARGIN).saturating_add(last),
    }
}

fn sums(
    alloc: Global,
    points: &Points,
    numbers: &mut Numbers,
    count: u64,
) -> Result<u64, NoMemory> {
    let mut checksum = Checksum::new();
    for _ in 0..count {
        let total = points.sum(alloc, wide_rect(numbers))?;
        checksum.add(total.sum);
        checksum.add(total.count);
    }
    Ok(checksum.sum())
}

/// Asks for the totals of wide rectangles, a tenth as many as there are points.
pub(crate) fn time_sum(rt: &impl Clock, alloc: Global, size: u64, seed: u64) -> Result<Timed> {
    let mut numbers = Numbers::new(seed);
    let points = Points::from_points(alloc, &random_points(alloc, &mut numbers, size)?)?;
    let start = Instant::now(rt)?;
    let checksum = sums(alloc, &points, &mut numbers, size / 10)?;
    let nanoseconds = since(rt, start)?;
    Ok(Timed {
        checksum,
        nanoseconds,
    })
}
