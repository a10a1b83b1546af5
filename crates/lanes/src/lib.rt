//! Lanes: each carries items from one submitter to one intake, in order.
//!
//! An item goes at once into a ring of 1024 places, or waits in the submitter's own list where the ring is full or an earlier item waits.
//!
//! Nothing is lost, doubled or reordered: the intake has received what was sent, up to what is still under way. A submit takes
//! O(1) on average and never waits for the other end; where memory for the list runs out it hands the value back, and nothing
//! was sent. Each end is for one thread at a time.
//!
//! Tests: `serving_tests`. Wrong bodies: here, in `wrong-bodies/`.
#![tactic(auto)]

mod cross;
mod intake;
mod moves;
mod submitter;

pub use intake::Intake;
pub use submitter::{Lane, Refused, Submitter};
