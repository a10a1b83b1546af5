//! That the ends cross threads.
use crate::{Intake, Submitter};
use std::marker::Send;

fn sends<T: Send>(_value: &T) {}

/// Each end is sent to a thread of its own. It does nothing, and is there for the proof of that alone.
pub(crate) fn ends_cross<T: Send>(submitter: &Submitter<T>, intake: &Intake<T>) {
    sends(submitter);
    sends(intake);
}
