//! The end of a text.
ghost use Rattle.std.specs.Prelude.{◌≡◌, ◌++◌, IfOk};
ghost use Rattle.serve_text.specs.Texts.{rest_text};
ghost use Rattle.serve_rounds.specs.Rounds.{IsBetweenRounds};

use crate::played::Played;
use aug_monoid::NoMemory;
use fork_join::{Gate, On};
use serve_text::{Answers, write_rest};
use std::alloc::Global;
use std::marker::Sync;
use std::sync::Wait;
use std::thread::Threads;
use versions::SyncState;

/// The text with the order of the batches and the last line, from the version that the store's `finish` gives. It takes time linear
/// in the number of batches, and may wait.
pub fn finish<A: Answers<S>, S: SyncState, R: Threads + Wait + Sync, G: Gate>(
    on: On<R, G>,
    alloc: Global,
    played: Played<S>,
) -> Result<Vec<u8>, NoMemory>
    requires { IsBetweenRounds played.store played.callers.items }
    ensures { IfOk result (λ text. text.items ≡ played.text.items ++ rest_text S.step A.last_of played.store.base played.store.journal) }
{
    let Played {
        store,
        callers,
        text,
    } = played;
    let Ok(version) = store.finish(on.rt, alloc, on.gate, on.cut, callers) else {
        return Err(NoMemory);
    };
    let mut text = text;
    write_rest::<A, S>(alloc, &version, &mut text)?;
    Ok(text)
}
