//! Points, rectangles and totals.

/// A point with its weight.
#[derive(Clone, Copy, Debug, PartialEq, Eq)]
pub struct Point {
    pub x: u64,
    pub y: u64,
    pub weight: u64,
}

/// The places with x from `x1` to `x2` and y from `y1` to `y2`, ends included; none where an end is before its start.
#[derive(Clone, Copy, Debug, PartialEq, Eq)]
pub struct Rect {
    pub x1: u64,
    pub x2: u64,
    pub y1: u64,
    pub y2: u64,
}

/// The sum of the weights of some points, at most `u64::MAX`, and how many points there are.
#[derive(Clone, Copy, Debug, PartialEq, Eq)]
pub struct Total {
    pub sum: u64,
    pub count: u64,
}
