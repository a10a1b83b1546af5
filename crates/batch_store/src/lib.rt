//! A store: many callers submit batches, and one combiner publishes them as versions.
//!
//! Each caller has a lane to the store and a reader of the store's root. A turn takes what the lanes show and publishes it as one
//! version; the end of a round takes all that was sent. No batch is lost, doubled or reordered, also where memory is refused.
//!
//! Tests: `store_tests`. Wrong bodies: here, in `wrong-bodies/`.
#![tactic(auto)]

mod caller;
mod closing;
mod collecting;
mod cross;
mod inbox;
mod opening;
mod publishing;
mod store;
mod submitted;

pub use caller::Caller;
pub use lanes::Refused;
pub use store::{Store, Unfinished};
pub use submitted::Submitted;
pub use version_root::{Batch, Entry, Missed, State, SyncState, Version};
