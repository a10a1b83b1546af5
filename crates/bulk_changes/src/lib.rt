//! Operations on whole maps that are given up: what has one owner is moved into the answer, and what has more is copied.
//!
//! `UnitingInto` is the union with a list, as work for `divide` of `fork_join`, whose answer depends neither on the runtime nor on
//! the gate nor on the cut, and for `divide_alone`, which gives the same answer on one thread. The only refusal is want of memory,
//! and then the map is lost; copies of it that were taken before stay as they were.
//!
//! An `IntoShape` is a shape of maps whose blocks hand their entries out (`IntoEntries`) where they are given up.
//!
//! Tests: `bulk_tests`, `work_tests`. Wrong bodies: none here; `aug_map` states these clauses again.
#![tactic(auto)]

mod into_entries;
mod into_shape;
mod merging;
mod putting;
mod taking;
mod uniting;

pub use into_entries::IntoEntries;
pub use into_shape::{IntoShape, SyncIntoShape};
pub use uniting::UnitingInto;
