//! The words of the tool gserve.
ghost use Rattle.std.specs.Prelude.{◌≡◌, ◌+◌, ◌<◌, drop, length};
ghost use Rattle.csv.specs.Records.{fields_of};
ghost use Rattle.script.specs.Fields.{field};
ghost use Rattle.serve_script.specs.Gserve.{numbers_in, operation_fits, operation_of, query_of};

use crate::words::{Operation, Query, next_numbers, no_query_number, query_number};
use csv::ByteRecord;
use script::Code;
use script::fields::field_at;
use served_graph::GraphOp;

/// A question about the served graph.
#[derive(Clone, Copy, Debug, PartialEq, Eq)]
pub enum EdgeQuery {
    /// Asks how many out-neighbours `u` has.
    Degree { u: u64 },
    /// Asks for what can be reached from `u`, with the distances.
    Bfs { u: u64 },
    /// Asks how many vertices have out-neighbours, and how many edges there are.
    Size,
}

impl Operation for GraphOp {
    ghost operation_of = { operation_of };

    ghost numbers_in = { numbers_in };

    ghost fits = { operation_fits };

    #[tactic(auto, unfolding(crate::specs::Gserve::operation_of))]
    fn operation_at(row: &ByteRecord, place: usize) -> Result<GraphOp, Code> {
        let _size = row.len(); // for the proof alone: places of fields fit their type
        let word = field_at(row, place);
        if word == b"add".as_slice() {
            let (from, to) = next_numbers(row, place + 1)?;
            Ok(GraphOp::Add { from, to })
        } else if word == b"cut".as_slice() {
            let (from, to) = next_numbers(row, place + 1)?;
            Ok(GraphOp::Cut { from, to })
        } else {
            Err(Code::Op)
        }
    }

    fn numbers(&self) -> usize {
        2
    }
}

impl Query for EdgeQuery {
    ghost query_of = { query_of };

    #[tactic(auto, unfolding(crate::specs::Gserve::query_of))]
    fn query(row: &ByteRecord) -> Result<EdgeQuery, Code> {
        let word = field_at(row, 2);
        if word == b"degree".as_slice() {
            let u = query_number(row)?;
            Ok(EdgeQuery::Degree { u })
        } else if word == b"bfs".as_slice() {
            let u = query_number(row)?;
            Ok(EdgeQuery::Bfs { u })
        } else if word == b"size".as_slice() {
            no_query_number(row)?;
            Ok(EdgeQuery::Size)
        } else {
            Err(Code::Op)
        }
    }
}
