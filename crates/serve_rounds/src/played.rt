//! What rounds leave.
use batch_store::{Caller, State, Store};

/// A store, its callers in order, and the lines of the reads so far.
#[derive(Drop)]
pub struct Played<S: State> {
    pub store: Store<S>,
    pub callers: Vec<Caller<S>>,
    pub text: Vec<u8>,
}
