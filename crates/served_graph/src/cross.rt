//! Served graphs and their operations cross threads.
use crate::op::GraphOp;
use crate::served::ServedGraph;
use aug_monoid::crosses;
use versions::state_crosses;

/// A served graph and its operations are sent to and shared among threads. It does nothing, and is there for the proof of that
/// alone.
pub fn graph_crosses(served: &ServedGraph, op: &GraphOp) {
    state_crosses(served);
    crosses(op);
}
