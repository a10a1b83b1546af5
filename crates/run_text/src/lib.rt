//! The form of a text that tells a run of serve, and the numbers that it names.
//!
//! `parts_told` reads the lines of reads, the numbers of batches in order and the last line, in time linear in the text, and
//! tells none where the text has another form. It judges no number: that is for `run_check`.
//!
//! Tests: `program_tests`. Wrong bodies: none here; `run_check` states these clauses again.
#![tactic(auto)]

mod batches;
mod form;
mod head;
mod lines;
mod number;
mod replies;

pub use form::{Told, parts_told};
pub use replies::Reply;
