//! The parts of a round of serve: one caller's records, the combiner's turns, and the lines of many callers put in record order.
//!
//! `run_caller` does what one caller has in a round: it submits its batches, and looks for the newest version at each query.
//! `combine` takes so many turns of the store, of which each publishes what lanes show. `weave` puts the lines of callers in
//! the order of the records.
//!
//! Tests: `serve_program_tests`. Wrong bodies: here, in `wrong-bodies/`.
#![tactic(auto)]

mod calling;
mod combining;
mod lines;
mod weaving;

pub use calling::run_caller;
pub use combining::combine;
pub use lines::Lines;
pub use weaving::weave;
