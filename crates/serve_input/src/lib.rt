//! From the commands of a tool that serves callers to the records that rounds run.
//!
//! `records` makes batches and reads in rounds of the commands of a tool; `callers` tells how many callers there are. O(n) for n
//! commands. They refuse only for want of memory.
//!
//! Tests: `serve_program_tests`. Wrong bodies: none here; `serve_tool` states these clauses of whole runs.
#![tactic(auto)]

mod converting;

pub use converting::{callers, records};
