//! Served maps and their operations cross threads.
use crate::served::Served;
use aug_monoid::crosses;
use op_runs::Op;
use versions::state_crosses;

/// A served map and its operations are sent to and shared among threads. It does nothing, and is there for the proof of that alone.
pub fn served_crosses(served: &Served, op: &Op) {
    state_crosses(served);
    crosses(op);
}
