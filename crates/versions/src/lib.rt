//! Versions of a state: a base, a journal of entries, and the state after the journal's operations.
//!
//! A `State` says what a batch of operations makes of it. A `Version` gets entries at the end of its journal, each of them a
//! batch, and applies their operations once; every earlier version stays as it was, and shares journal and state with the later
//! one. That its state is what these operations make of the base is its invariant. A call refuses only for want of memory.
//!
//! Tests: `serving_tests`. Wrong bodies: here, in `wrong-bodies/`.
#![tactic(auto)]

mod batch;
mod cross;
mod state;
mod version;

pub use batch::{Batch, Entry};
pub use cross::state_crosses;
pub use state::{State, SyncState};
pub use version::Version;
