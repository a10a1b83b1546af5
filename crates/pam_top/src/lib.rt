//! The program behind its words, its source and its sink.
//!
//! `pam` reads its words, the input and runs the tool, and appends the text to the sink: what it took, what it wrote and the
//! status are an `Outcome` of the words and the bytes (`specs/Answer`), in which maps are sorted lists. `pam_plain` is the same
//! without the tools that wait, for words that `asks_plainly` answers `true` to. Each status comes only with its cause, but out of
//! memory, which is tied to none. `plain_map` is the plain program of one map, for tests. `run_serve`, `run_gserve` and `check` are
//! the calls behind the tools of these names, on a store and callers, or a text, that are at hand.
//!
//! Tests: `program_tests`. Wrong bodies: here, in `must-fail/` and `wrong-bodies/`.
#![tactic(auto)]

mod asking;
mod command_line;
pub mod plain_map;
mod plain_top;
mod reading;
mod running;
mod sample;
mod settings;
mod status;
mod telling;
mod top;
mod words_fault;
mod writing;

pub use check_tool::check;
pub use plain_top::{asks_plainly, pam_plain};
pub use running::run_plain;
pub use serve_tool::{run_gserve, run_serve};
pub use status::Status;
pub use top::pam;
