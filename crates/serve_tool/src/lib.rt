//! The tools serve and gserve: callers that change and read one state side by side, and the text of what they did.
//!
//! `run_served` runs the rounds of `serve_rounds` on a store and callers that are at hand, and `served_text` on new ones, and answers
//! the text, which is that of a lawful history of the records. `run_serve` and `serve_text` are these for a map, `run_gserve` and
//! `gserve_text` for a graph. They wait for their threads, so no proof says that they return. They refuse only for want of memory.
//!
//! Tests: `serve_program_tests`. Wrong bodies: here, in `wrong-bodies/`.
#![tactic(auto)]

mod serving;

pub use serving::{gserve_text, run_gserve, run_serve, run_served, serve_text, served_text};
