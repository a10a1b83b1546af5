//! The rounds of serve: callers in threads of their own beside one combiner, round after round, and the text that they leave.
//!
//! In `run_rounds` the callers that have records in a round run side by side, beside one combiner; a round begins when the one
//! before it has ended. `finish` writes the order of the batches and the last line. The text is that of a lawful history of the
//! records, whatever the threads do (`HasServed`). Both may wait, so no proof says that they return.
//!
//! Tests: `serve_program_tests`. Wrong bodies: none here; `serve_tool` states these clauses again.
#![tactic(auto)]

mod finishing;
mod parts;
mod played;
mod ran;
mod round;
mod rounds;
mod running;

pub use finishing::finish;
pub use played::Played;
pub use rounds::run_rounds;
