//! The tool points: its commands, read from records, and what they do to points in the plane.
//!
//! A script is a list of `PointsCommand`s; `run_points` answers the replies in order. Points that are added in a row wait, and
//! go into the set by one call of `range_tree` before the next other command. A run refuses only for want of memory.
//!
//! Tests: `program_tests`. Wrong bodies: none here; `pam_top` states these clauses of whole runs.
#![tactic(auto)]

mod asking;
mod board;
mod commands;
mod running;
mod weighed;

pub use commands::PointsCommand;
pub use running::run_points;
pub use weighed::Weighed;
