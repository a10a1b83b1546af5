//! Operations and outcomes cross threads.
use crate::op::Op;
use crate::outcome::Outcome;
use aug_monoid::crosses;

/// Operations and outcomes are sent to and shared among threads. It does nothing, and is there for the proof of that alone.
pub fn op_crosses(op: &Op, outcome: &Outcome) {
    crosses(op);
    crosses(outcome);
}
