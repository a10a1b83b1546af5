//! The commands of a whole input.
ghost use Rattle.std.specs.Prelude.{IfOk};
ghost use Rattle.tool_input.specs.Commands.{commands_of};
ghost use Rattle.tool_input.specs.Lawful.{IsLawful};
ghost use Rattle.tool_input.specs.declared.parsed.Tool.TheVariants as tool;
ghost use Rattle.script.specs.Results.{Gives};

use check_input::{CheckInput, check_input};
use graph_tool::GraphCommand;
use index_tool::IndexCommand;
use interval_tool::IntervalCommand;
use map_records::MapCommand;
use points_tool::PointsCommand;
use script::{Items, ScriptFault, read_all};
use seq_tool::SeqCommand;
use serve_script::{GserveCommand, ServeCommand, served_commands};
use std::alloc::Global;

/// A tool of the program.
#[derive(Clone, Copy, Debug, PartialEq, Eq)]
pub enum Tool {
    /// Ordered maps in sixteen registers.
    Map,
    /// Sequences in sixteen registers.
    Seq,
    /// A set of intervals.
    Interval,
    /// Points in the plane with weights.
    Points,
    /// Documents and their terms.
    Index,
    /// A directed graph and kept snapshots of it.
    Graph,
    /// One map that callers change by batches and read, side by side.
    Serve,
    /// One graph that callers change by batches and read, side by side.
    Gserve,
    /// Whether a text is that of a lawful run of the tool serve.
    Check,
    /// Commands of the tool map that are made from a seed and a size. It reads no records.
    Sample,
}

/// The commands of an input.
#[derive(Drop)]
pub enum Parsed {
    Map(Items<MapCommand>),
    Seq(Items<SeqCommand>),
    Interval(Items<IntervalCommand>),
    Points(Items<PointsCommand>),
    Index(Items<IndexCommand>),
    Graph(Items<GraphCommand>),
    Serve(Items<ServeCommand>),
    Gserve(Items<GserveCommand>),
    Check {
        list: Items<ServeCommand>,
        text: Items<u8>,
    },
}

// The commands and the text of the tool check.
fn parsed_check(alloc: Global, bytes: &[u8]) -> Result<Parsed, ScriptFault>
    ensures exact { Gives result (commands_of tool.Check bytes.now) }
    ensures lawful { IfOk result IsLawful }
{
    let CheckInput { list, text } = check_input(alloc, bytes)?;
    Ok(Parsed::Check { list, text })
}

/// The commands of a tool's input, or its first bad record. Records are those of `csv` with its
/// default delimiter, quote and line ends, without a header row; an empty line is none. The tool
/// sample reads none, and so its input has no commands. Time is linear in the input.
pub fn commands(alloc: Global, tool: Tool, bytes: &[u8]) -> Result<Parsed, ScriptFault>
    ensures exact { Gives result (commands_of tool bytes.now) }
    ensures lawful { IfOk result IsLawful }
{
    match tool {
        Tool::Map => Ok(Parsed::Map(read_all(alloc, bytes)?)),
        Tool::Seq => Ok(Parsed::Seq(read_all(alloc, bytes)?)),
        Tool::Interval => Ok(Parsed::Interval(read_all(alloc, bytes)?)),
        Tool::Points => Ok(Parsed::Points(read_all(alloc, bytes)?)),
        Tool::Index => Ok(Parsed::Index(read_all(alloc, bytes)?)),
        Tool::Graph => Ok(Parsed::Graph(read_all(alloc, bytes)?)),
        Tool::Serve => Ok(Parsed::Serve(served_commands(alloc, bytes)?)),
        Tool::Gserve => Ok(Parsed::Gserve(served_commands(alloc, bytes)?)),
        Tool::Check => parsed_check(alloc, bytes),
        Tool::Sample => Ok(Parsed::Map(Items::new(Vec::new(alloc)))),
    }
}
