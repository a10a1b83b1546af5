//! From the bytes of an input to records, and from answers to lines of text: what the commands of all
//! tools are read and answered by.
//!
//! `read_all` gives the commands of an input, or its first bad record with its number and code; a tool says by `Command` how a
//! record says a command. Shapes of fields that tools share stand in `shapes`, single fields in `fields`. `line` and
//! `counted_line` append lines, and leave the text as it was where they are refused. What a record and a number are is told in
//! docs/TOOLS.md.
//!
//! Tests: `tool_tests`. Wrong bodies: none here; `pam_top` states these clauses of whole runs.
#![tactic(auto)]

mod command;
mod fault;
pub mod fields;
mod items;
mod lines;
mod lists;
mod numbers;
mod records;
mod rows;
pub mod shapes;

pub use command::{Command, read_all};
pub use fault::{BadRecord, Code, RecordFault, ScriptFault};
pub use items::Items;
pub use lines::{error_line, line, push_part, reply};
pub use numbers::number;
pub use records::Records;
pub use rows::{Numbers, counted, counted_line};
