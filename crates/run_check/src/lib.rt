//! Whether a text is that of a lawful run of serve, and where it fails.
//!
//! `check` reads a text beside the records that were run, and answers the least point of a lawful history that fails
//! (`Verdict`), or that all hold. It is generic in the state, its operations and its answers, as `serve_rounds` is. There is
//! one state at a time, to which batches are applied in their order, so memory does not grow with the number of versions. It
//! refuses only for want of memory.
//!
//! Tests: `program_tests`. Wrong bodies: here, in `wrong-bodies/`.
#![tactic(auto)]

mod checking;
mod placed;
mod points;
mod reads;
mod replay;
mod rising;
mod turns;
mod verdict;

pub use checking::check;
pub use verdict::Verdict;
