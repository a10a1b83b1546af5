//! The tool interval: its commands, read from records and run on one set of intervals: each is one call of the library of intervals.
//!
//! A script is a list of `IntervalCommand`s; `run_intervals` answers the replies in order. The set is changed in place. An
//! interval whose ends are not in order is a bad record, so a run refuses only for want of memory.
//!
//! Tests: `program_tests`. Wrong bodies: none here; `pam_top` states these clauses of whole runs.
#![tactic(auto)]

mod command;
mod commands;
mod hits;
mod running;

pub use commands::IntervalCommand;
pub use running::run_intervals;
