//! The commands of a tool that serves callers.
use script::Items;

/// A command of a tool that serves one state to callers, which change it by operations `O` and ask it queries `Q`. `place` is its
/// record's number from 1.
#[derive(Drop)]
pub enum ServedCommand<O: Drop, Q: Drop> {
    /// The callers are those from 0 to `n` - 1. This is the first command, and no later one.
    Serve { place: u64, n: u64 },
    /// Caller `c` submits these operations, at least one.
    Batch { place: u64, c: u64, ops: Items<O> },
    /// Caller `c` asks.
    Read { place: u64, c: u64, query: Q },
    /// Ends the round.
    Round { place: u64 },
}
