//! The input of the tool check: an input of the tool serve, the line `run`, and a text.
//!
//! The first line `run` parts the input: before it stand the records of serve, whose first bad one is told as serve tells it,
//! and behind it the bytes of the text as they are. Where no line is `run`, the record behind the last one is bad, with the
//! code `run`. O(n) for an input of n bytes.
//!
//! Tests: `program_tests`. Wrong bodies: here, in `wrong-bodies/`.
#![tactic(auto)]

mod finding;
mod input;

pub use finding::run_line;
pub use input::{CheckInput, check_input};
