//! The tool index: its commands, read from records and run on an inverted index.
//!
//! A script is a list of `IndexCommand`s; `run_index` answers the replies in order. Documents in a row are added as one batch,
//! and what each `doc` replies is what it would have replied alone. Terms are checked when records are read, so a run refuses
//! only for want of memory.
//!
//! Tests: `program_tests`. Wrong bodies: none here; `pam_top` states these clauses of whole runs.
#![tactic(auto)]

mod asking;
mod batch;
mod commands;
mod running;
mod term_fields;
mod terms;

pub use commands::IndexCommand;
pub use running::run_index;
