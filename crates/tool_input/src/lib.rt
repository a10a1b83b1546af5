//! The tools of the program, and the commands of a tool's input.
//!
//! `commands` reads an input for a `Tool`, each record by the crate of that tool, and answers the commands (`Parsed`) or the
//! first bad record. The tool sample reads nothing and has no commands. So `pam_top` knows of no record.
//!
//! Tests: `tool_tests`. Wrong bodies: none here; `pam_top` states these clauses of whole runs.
#![tactic(auto)]

mod parsed;

pub use parsed::{Parsed, Tool, commands};
