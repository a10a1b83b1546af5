//! The tool check: whether a text is that of a lawful run of the tool serve.
//!
//! `check` judges the text by `run_check` with a map that operations change, and `run_check` replies `yes`, or `no` with the
//! number of the least point that fails. It starts no thread of its own but for the changes of the map, and refuses only for
//! want of memory.
//!
//! `check_gserve` judges a text of the tool gserve, with a graph.
//!
//! Tests: `program_tests`, `serve_program_tests`. Wrong bodies: here, in `wrong-bodies/`.
#![tactic(auto)]

mod checking;

pub use checking::{check, check_gserve, run_check};
pub use run_check::Verdict;
