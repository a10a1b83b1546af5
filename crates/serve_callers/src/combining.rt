//! The combiner's part of a round.
ghost use Rattle.std.specs.Prelude.{IfOk};
ghost use Rattle.version_root.specs.Public.{IsPrefix};
ghost use Rattle.batch_store.specs.Keeping.{SameStore};

use aug_monoid::NoMemory;
use batch_store::{State, Store};
use fork_join::{Gate, On};
use std::alloc::Global;
use std::marker::Sync;
use std::sync::Wait;
use std::thread::Threads;

/// So many turns of the store. It waits for no caller.
pub fn combine<S: State, R: Threads + Wait + Sync, G: Gate>(
    on: On<R, G>,
    alloc: Global,
    store: Store<S>,
    turns: u64,
) -> Result<Store<S>, NoMemory>
    ensures same { IfOk result (λ later. SameStore store later) }
    ensures begins { IfOk result (λ later. IsPrefix store.journal later.journal) }
{
    let mut store = store;
    for _turn in 0..turns {
        store.turn(on.rt, alloc, on.gate, on.cut)?;
    }
    Ok(store)
}
