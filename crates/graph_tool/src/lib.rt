//! The tool graph: its commands, read from records and run on the present graph and the kept ones.
//!
//! A script is a list of `GraphCommand`s; `run_graph` answers the replies in order. A command's edges are added or cut by one
//! call of `graph_snap`; a snapshot costs a pointer and stays as it is, and searches can name it by its number. A run refuses
//! only for want of memory.
//!
//! Tests: `program_tests`. Wrong bodies: none here; `pam_top` states these clauses of whole runs.
#![tactic(auto)]

mod command;
mod commands;
mod graphs;
mod replies;
mod running;

pub use commands::GraphCommand;
pub use replies::ReachedNumbers;
pub use running::run_graph;
