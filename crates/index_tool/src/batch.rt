//! Documents that wait to be added in one batch, and the replies to their commands.
ghost use Rattle.std.specs.Prelude.{◌≡◌, ◌++◌, IfOk, OnOk};
ghost use Rattle.std.specs.List.{flat_map};
ghost use Rattle.index_tool.specs.Effects.{doc_lines, outcome_line};
ghost use Rattle.inverted_index.specs.Added.{with_docs};

use aug_monoid::NoMemory;
use fork_join::{Gate, On};
use inverted_index::{Doc, Index, Outcome};
use script::line;
use std::alloc::Global;
use std::marker::Sync;
use std::thread::Threads;

// Appends the reply to a command that adds a document.
fn outcome_line(text: &mut Vec<u8>, outcome: Outcome) -> Result<(), NoMemory>
    ensures { OnOk result (text.new.items ≡ text.old.items ++ outcome_line outcome) }
{
    match outcome {
        Outcome::Known => line(text, "known", &[])?,
        Outcome::New { terms } => line(text, "ok", &[terms])?,
    }
    Ok(())
}

// Appends the replies to commands that add documents.
fn outcome_lines(text: &mut Vec<u8>, outcomes: &[Outcome]) -> Result<(), NoMemory>
    ensures { OnOk result (text.new.items ≡ text.old.items ++ flat_map outcome_line outcomes.now) }
{
    for outcome in outcomes {
        outcome_line(text, *outcome)?;
    }
    Ok(())
}

/// Adds documents that wait, in one batch, and appends the replies to their commands.
pub(crate) fn settle<R: Threads + Sync, G: Gate>(
    on: On<R, G>,
    alloc: Global,
    index: Index,
    waiting: &[Doc<'_>],
    text: &mut Vec<u8>,
) -> Result<Index, NoMemory>
    ensures after { IfOk result (λ after. after ≡ with_docs index waiting.now) }
    ensures reply { OnOk result (text.new.items ≡ text.old.items ++ doc_lines index waiting.now) }
{
    if waiting.is_empty() {
        return Ok(index);
    }
    let added = index.add_docs(on.rt, alloc, on.gate, on.cut, waiting)?;
    outcome_lines(text, &added.outcomes)?;
    Ok(added.index)
}
