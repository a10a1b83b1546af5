//! A two-level range tree: points in the plane, with the total and the list of those in a rectangle.
//!
//! The outer map has the points by (x, y). The augmented value of each of its parts is the map of the same points by (y, x),
//! with the sum of their weights. Both maps store their blocks as gaps between the first numbers of places.
//!
//! `from_points` makes a set of points at once; `add` and `del` set and remove points in batches and fork where a cut allows it, as
//! `add_alone` and `del_alone` do on one thread. `add_into` and `add_into_alone` add to points that are given up, and `insert` and
//! `remove` change one point of a set where it stands. `get` looks a point up; `count`, `sum` and `list` ask for those in a rectangle.
//!
//! Tests: `library_tests`. Wrong bodies: here, in `wrong-bodies/`.
#![tactic(auto)]

mod changing;
mod cross;
mod listings;
mod places;
mod points;
mod rows;
mod totals;
mod tree;

pub use cross::points_cross;
pub use points::{Point, Rect, Total};
pub use rows::{Places, RowMap, Rows};
pub use tree::{PointMap, Points};
