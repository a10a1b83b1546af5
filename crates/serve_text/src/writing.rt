//! The writers of a text.
ghost use Rattle.std.specs.Prelude.{◌≡◌, ◌++◌, ◌∷◌, [], length, IfOk, MatchResult, decimal, codes};
ghost use Rattle.versions.specs.History.{state_of};
ghost use Rattle.serve_text.specs.Texts.{Extends, comma, line_feed, reply_head, order_line, order_text, rest_text};

use crate::answers::Answers;
use aug_monoid::{NoMemory, Share};
use itoa::Buffer;
use shared_log::SharedLog;
use std::alloc::Global;
use versions::{Entry, State, Version};

fn push_number(out: &mut Vec<u8>, number: u64) -> Result<(), NoMemory>
    ensures { MatchResult result (λ _. out.new.items ≡ out.old.items ++ decimal number) (λ _. out.new.items ≡ out.old.items) }
{
    let mut buffer = Buffer::new();
    out.extend_from_slice(buffer.format(number).as_bytes())?;
    Ok(())
}

fn push_pair(out: &mut Vec<u8>, first: u64, second: u64) -> Result<(), NoMemory>
    ensures { MatchResult result (λ _. out.new.items ≡ out.old.items ++ (decimal first ++ (comma ∷ decimal second))) (λ _. Extends out.old.items out.new.items) }
{
    push_number(out, first)?;
    out.push(b',')?;
    push_number(out, second)
}

fn push_head(out: &mut Vec<u8>, place: u64, number: u64) -> Result<(), NoMemory>
    ensures { MatchResult result (λ _. out.new.items ≡ out.old.items ++ reply_head place number) (λ _. Extends out.old.items out.new.items) }
{
    out.extend_from_slice(b"r,")?;
    push_pair(out, place, number)?;
    out.push(b',')?;
    Ok(())
}

fn push_order_line(out: &mut Vec<u8>, place: u64, tag: u64) -> Result<(), NoMemory>
    ensures { MatchResult result (λ _. out.new.items ≡ out.old.items ++ order_line place tag) (λ _. Extends out.old.items out.new.items) }
{
    out.extend_from_slice(b"j,")?;
    push_pair(out, place, tag)?;
    out.push(b'\n')?;
    Ok(())
}

/// The line of a read: its record's number, the version's number, and what the version's state answers.
pub fn reply_line<A: Answers<S>, S: State>(
    alloc: Global,
    place: u64,
    version: &Version<S>,
    query: &A::Query,
) -> Result<Vec<u8>, NoMemory>
    ensures { IfOk result (λ text. text.items ≡ reply_head place (length version.now.journal) ++ (A.answer_of (state_of S.step version.now) query.now ++ line_feed ∷ [])) }
{
    let mut text = Vec::new(alloc);
    push_head(&mut text, place, version.number())?;
    A::answer(alloc, version.state(), query, &mut text)?;
    text.push(b'\n')?;
    Ok(text)
}

/// Appends the lines of the journal's entries in order, or the first part of them.
fn write_order<O: Share>(out: &mut Vec<u8>, journal: &SharedLog<Entry<O>>) -> Result<(), NoMemory>
    ensures { MatchResult result (λ _. out.new.items ≡ out.old.items ++ order_text 1 journal.now) (λ _. Extends out.old.items out.new.items) }
{
    for at in 0..journal.len() {
        let Some(entry) = journal.get(at) else {
            unreachable!()
        };
        push_order_line(out, at + 1, entry.tag)?;
    }
    Ok(())
}

/// Appends what comes after the reads' lines, or the first part of it: the order of the version's batches, and the last line of its state.
pub fn write_rest<A: Answers<S>, S: State>(
    alloc: Global,
    version: &Version<S>,
    out: &mut Vec<u8>,
) -> Result<(), NoMemory>
    ensures { MatchResult result (λ _. out.new.items ≡ out.old.items ++ rest_text S.step A.last_of version.now.base version.now.journal) (λ _. Extends out.old.items out.new.items) }
{
    write_order(out, version.journal())?;
    A::write_last(alloc, version.state(), out)
}
