//! The commands of the tools that serve callers, read from records: they differ in their operations and queries alone.
//!
//! An input begins with the number of callers; its records are batches' operations, reads and the ends of rounds.
//! `served_commands` reads it for any `Operation` and `Query`, and tells the first bad record with its number and code.
//! The tool serve has the operations of a served map and asks `ServeQuery`; the tool gserve those of a served graph and `EdgeQuery`.
//!
//! Tests: `tool_tests`. Wrong bodies: none here; `pam_top` states these clauses of whole runs.
#![tactic(auto)]

mod commands;
mod edge_words;
mod map_words;
mod records;
mod words;

pub use commands::ServedCommand;
pub use edge_words::EdgeQuery;
pub use map_words::ServeQuery;
pub use op_runs::Op;
pub use records::served_commands;
pub use served_graph::GraphOp;
pub use words::{
    Operation, Query, next_number, next_numbers, no_query_number, query_number, query_numbers,
};

/// A command of the tool serve.
pub type ServeCommand = ServedCommand<Op, ServeQuery>;

/// A command of the tool gserve.
pub type GserveCommand = ServedCommand<GraphOp, EdgeQuery>;
