//! The tool seq: its commands, read from records and run on sixteen registers: each is one call of the library of sequences.
//!
//! A script is a list of `SeqCommand`s; `run_seq` answers the replies in order. A push or an append that would be too long, and
//! a place that is not there, are answered as such before anything is made. A run refuses only for want of memory.
//!
//! Tests: `program_tests`. Wrong bodies: none here; `pam_top` states these clauses of whole runs.
#![tactic(auto)]

mod asking;
mod change;
mod changing;
mod command;
mod commands;
mod registers;

pub use command::run_seq;
pub use commands::SeqCommand;
