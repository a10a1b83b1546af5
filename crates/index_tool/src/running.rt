//! Runs the commands of the tool index.
ghost use Rattle.std.specs.Prelude.{◌≡◌, ◌++◌, [], IfOk, OnOk};
ghost use Rattle.std.specs.List.{AllByRecursion};
ghost use Rattle.index_tool.specs.Effects.{Asks, doc_lines, index_after, index_reply};
ghost use Rattle.index_tool.specs.IndexRecords.{HasTerms};
ghost use Rattle.inverted_index.specs.Added.{with_docs};
ghost use Rattle.script.specs.Replies.{replies};

use crate::IndexCommand;
use crate::asking::{all_of, any_of, docs_line, top, without};
use crate::batch::settle;
use aug_monoid::NoMemory;
use fork_join::{Gate, On};
use inverted_index::{Doc, Index};
use std::alloc::Global;
use std::marker::Sync;
use std::thread::Threads;

// Appends the reply to a question.
fn answer<R: Threads + Sync, G: Gate>(
    on: On<R, G>,
    alloc: Global,
    index: &Index,
    command: &IndexCommand,
    text: &mut Vec<u8>,
) -> Result<(), NoMemory>
    requires lawful { HasTerms command.now }
    requires asks { Asks command.now }
    ensures { OnOk result (text.new.items ≡ text.old.items ++ index_reply index.now command.now) }
{
    let hits = match command {
        IndexCommand::Doc { .. } => unreachable!(),
        IndexCommand::And { place: _, terms } => { all_of(on, alloc, index, terms.items())? }
        IndexCommand::Or { place: _, terms } => { any_of(on, alloc, index, terms.items())? }
        IndexCommand::Without { place: _, terms } => { without(on, alloc, index, terms.items())? }
        IndexCommand::Top { place: _, i, term } => top(alloc, index, *i, term.items())?,
    };
    docs_line(alloc, text, &hits)
}

// Runs a command on an index and documents that wait to be added to it: one that adds a document lets it wait, a question is
// answered once none waits.
#[tactic(auto, using(crate::proofs::Waiting::asks_keeps))]
fn run_command<'a, R: Threads + Sync, G: Gate>(
    on: On<R, G>,
    alloc: Global,
    index: Index,
    waiting: &mut Vec<Doc<'a>>,
    command: &'a IndexCommand,
    text: &mut Vec<u8>,
) -> Result<Index, NoMemory>
    requires { HasTerms command.now }
    ensures after { IfOk result (λ next. with_docs next waiting.new.items ≡ index_after (with_docs index waiting.old.items) command.now) }
    ensures reply { IfOk result (λ next. text.new.items ++ doc_lines next waiting.new.items ≡ (text.old.items ++ doc_lines index waiting.old.items) ++ index_reply (with_docs index waiting.old.items) command.now) }
{
    if let IndexCommand::Doc {
        place: _,
        i,
        text: words,
    } = command
    {
        waiting.push(Doc {
            doc: *i,
            text: words.items(),
        })?;
        return Ok(index);
    }
    let index = settle(on, alloc, index, waiting, text)?;
    waiting.clear();
    answer(on, alloc, &index, command, text)?;
    Ok(index)
}

/// The replies to the commands, run in order on an index of no documents, which depend neither on the runtime nor on the gate
/// nor on the cut. Commands in a row that add documents are one batch, which forks where the cut allows it.
pub fn run_index<R: Threads + Sync, G: Gate>(
    on: On<R, G>,
    alloc: Global,
    commands: &[IndexCommand],
) -> Result<Vec<u8>, NoMemory>
    requires { AllByRecursion HasTerms commands.now }
    ensures { IfOk result (λ text. text.items ≡ replies index_reply index_after [] commands.now) }
{
    let mut index = Index::new();
    let mut waiting = Vec::new(alloc);
    let mut text = Vec::new(alloc);
    for command in commands {
        index = run_command(on, alloc, index, &mut waiting, command, &mut text)?;
    }
    // The replies to the documents that still wait; the index itself is wanted no more.
    let _index = settle(on, alloc, index, &waiting, &mut text)?;
    Ok(text)
}
