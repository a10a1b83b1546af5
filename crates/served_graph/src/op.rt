//! Operations on a graph.
ghost use Rattle.std.specs.Prelude.{◌≡◌};
ghost use Rattle.served_graph.specs.Nets.{fate_of};

use crate::fate::Fate;
use aug_monoid::{NoMemory, Pair64, Share};
use std::alloc::Global;

/// An operation on a graph.
#[derive(Clone, Copy, Debug, PartialEq, Eq)]
pub enum GraphOp {
    /// Adds an edge, which may be there already.
    Add { from: u64, to: u64 },
    /// Removes an edge, which need not be there.
    Cut { from: u64, to: u64 },
}

impl GraphOp {
    /// The operation's edge, and what becomes of it.
    pub(crate) fn fate(&self) -> (Pair64, Fate)
        ensures { result ≡ fate_of self.now }
    {
        match *self {
            GraphOp::Add { from, to } => (
                Pair64 {
                    first: from,
                    second: to,
                },
                Fate::Added,
            ),
            GraphOp::Cut { from, to } => (
                Pair64 {
                    first: from,
                    second: to,
                },
                Fate::Cut,
            ),
        }
    }
}

impl Share for GraphOp {
    ghost never_refuses = { Unit {0} };

    fn share(&self, _alloc: Global) -> Result<GraphOp, NoMemory> {
        Ok(*self)
    }

    fn is_total() -> bool {
        true
    }
}
