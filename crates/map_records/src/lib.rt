//! The records of the tool map: its commands, and how a record says one.
//!
//! `MapCommand` has one case for each verb. Its reader is the rows of a table, verb by verb, with the shapes of `script`; the
//! first fault of a record names its code. What is read names lawful registers, which `map_tool` relies on.
//!
//! Tests: `tool_tests`. Wrong bodies: none here; `pam_top` states these clauses of whole runs.
#![tactic(auto)]

mod commands;
mod how;
mod shapes;

pub use commands::MapCommand;
pub use how::How;
