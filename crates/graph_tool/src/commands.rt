//! The commands of the tool graph, and their records: a row for each verb.
ghost use Rattle.std.specs.Prelude.{◌≡◌};
ghost use Rattle.csv.specs.Records.{fields_of};
ghost use Rattle.graph_tool.specs.GraphRecords.{graph_command};

use aug_monoid::Pair64;
use csv::ByteRecord;
use script::fields::field_at;
use script::shapes::{alone, one_number, some_pairs, two_numbers};
use script::{Code, Command, Items, RecordFault};
use std::alloc::Global;

/// A command of the tool graph. `place` is its record's number from 1. An edge goes from the first
/// vertex of its pair to the second.
#[derive(Drop)]
pub enum GraphCommand {
    /// Adds these edges.
    Add { place: u64, edges: Items<Pair64> },
    /// Removes these edges, which need not be there.
    Cut { place: u64, edges: Items<Pair64> },
    /// Keeps the present graph as the next snapshot.
    Keep { place: u64 },
    /// Asks how many vertices have out-neighbours, and how many edges there are.
    Size { place: u64 },
    /// Asks how many out-neighbours `u` has.
    Degree { place: u64, u: u64 },
    /// Asks for what can be reached from `u` in the present graph, with the distances.
    Now { place: u64, u: u64 },
    /// Asks the same of snapshot `s`, counted from 0.
    Bfs { place: u64, s: u64, u: u64 },
    /// Asks for the ends of the present graph's edges, each with the least vertex of its component.
    Comp { place: u64 },
}

impl Command for GraphCommand {
    ghost reading = { graph_command };

    #[tactic(auto, unfolding(crate::specs::GraphRecords::graph_command))]
    fn read(alloc: Global, place: u64, row: &ByteRecord) -> Result<GraphCommand, RecordFault> {
        let verb = field_at(row, 0);
        if verb == b"add".as_slice() {
            let edges = some_pairs(alloc, row)?;
            Ok(GraphCommand::Add { place, edges })
        } else if verb == b"cut".as_slice() {
            let edges = some_pairs(alloc, row)?;
            Ok(GraphCommand::Cut { place, edges })
        } else if verb == b"keep".as_slice() {
            alone(row)?;
            Ok(GraphCommand::Keep { place })
        } else if verb == b"size".as_slice() {
            alone(row)?;
            Ok(GraphCommand::Size { place })
        } else if verb == b"degree".as_slice() {
            let u = one_number(row)?;
            Ok(GraphCommand::Degree { place, u })
        } else if verb == b"now".as_slice() {
            let u = one_number(row)?;
            Ok(GraphCommand::Now { place, u })
        } else if verb == b"bfs".as_slice() {
            let (s, u) = two_numbers(row)?;
            Ok(GraphCommand::Bfs { place, s, u })
        } else if verb == b"comp".as_slice() {
            alone(row)?;
            Ok(GraphCommand::Comp { place })
        } else {
            Err(RecordFault::Bad(Code::Verb))
        }
    }
}
