//! What a caller leaves of a round.
use batch_store::{Caller, State};
use serve_callers::Lines;
use std::marker::Model;

/// A caller after its records of a round, and the lines of its reads in order.
#[derive(Drop)]
pub(crate) struct Ran<S: State> {
    pub(crate) caller: Caller<S>,
    pub(crate) lines: Lines,
}

impl<S: State> Model for Ran<S> {
    ghost use Rattle.std.specs.Prelude.{List, ℕ};
    ghost use Rattle.batch_store.specs.Calling.{Calling};

    ghost Value = { Calling S S.Op × List (List ℕ) };

    ghost view = { λ a. (a.caller, a.lines) };
}
