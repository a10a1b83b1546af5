//! Replies about the points in a rectangle.
ghost use Rattle.std.specs.Prelude.{◌≡◌, ◌++◌, map, OnOk};
ghost use Rattle.points_tool.specs.Effects.{point_numbers, points_line, rect_of, total_line};
ghost use Rattle.range_tree.specs.Points.{inside, point_of, total_of};

use aug_monoid::NoMemory;
use range_tree::{Point, Points, Rect};
use script::{Numbers, counted_line, line};
use std::alloc::Global;

// The place and the weight of a point.
struct PointNumbers;

impl Numbers<Point, 3> for PointNumbers {
    ghost numbers_of = { point_numbers };

    fn numbers(point: &Point) -> [u64; 3] {
        [point.x, point.y, point.weight]
    }
}

/// A rectangle by its ends.
pub(crate) fn rect(x1: u64, x2: u64, y1: u64, y2: u64) -> Rect
    ensures { result ≡ rect_of x1 x2 y1 y2 }
{
    Rect { x1, x2, y1, y2 }
}

/// Appends the total of the points in a rectangle.
pub(crate) fn total(
    alloc: Global,
    points: &Points,
    rect: Rect,
    text: &mut Vec<u8>,
) -> Result<(), NoMemory>
    ensures { OnOk result (text.new.items ≡ text.old.items ++ total_line (total_of (inside rect points.now))) }
{
    let total = points.sum(alloc, rect)?;
    line(text, "sum", &[total.sum, total.count])
}

/// Appends the points in a rectangle.
pub(crate) fn list(
    alloc: Global,
    points: &Points,
    rect: Rect,
    text: &mut Vec<u8>,
) -> Result<(), NoMemory>
    ensures { OnOk result (text.new.items ≡ text.old.items ++ points_line (map point_of (inside rect points.now))) }
{
    let found = points.list(alloc, rect)?;
    counted_line::<PointNumbers, _, _>(alloc, text, "points", &found)
}
