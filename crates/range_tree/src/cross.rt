//! Points and rows cross threads.
use crate::rows::Rows;
use crate::tree::Points;
use aug_monoid::crosses;

/// Points, and the same by rows, are sent to and shared among threads. It does nothing, and is there for the proof of that alone.
pub fn points_cross(points: &Points, rows: &Rows) {
    crosses(points);
    crosses(rows);
}
