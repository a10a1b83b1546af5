//! What a served map and a served graph answer by text.
//!
//! `MapAnswers` and `GraphAnswers` say what `serve_text` asks of a state: the reply to a query of a version, and the last line of
//! the whole text. The states and their operations are those of `served_map` and `served_graph`.
//!
//! Tests: `serve_tests`. Wrong bodies: none here; `serve_tool` states these clauses of whole texts.
#![tactic(auto)]

mod graphs;
mod maps;

pub use graphs::GraphAnswers;
pub use maps::MapAnswers;
