//! What a served input asks for, which histories of it are lawful, and their text.
//!
//! A record is a batch of operations or a read by one caller. A history is an order of the batches and, for each read, how many
//! of them it has seen; it is lawful where the batches of each caller and those of each round stay before its later ones, each
//! read has seen all rounds before its own and none after it, and along one caller's reads that number never falls. What is
//! served and what is asked of it are generic (`Answers`).
//!
//! Tests: `serve_tests`. Wrong bodies: here, in `wrong-bodies/`.
#![tactic(auto)]

mod answers;
mod record;
mod writing;

pub use answers::Answers;
pub use record::{Act, Record};
pub use writing::{reply_line, write_rest};
