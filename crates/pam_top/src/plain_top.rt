//! The whole program without the tools that wait.
ghost use Rattle.std.specs.Prelude.{◌≡◌, ◌⊎◌, true, List, ℕ, IfOk, IsTrue, map};
ghost use Rattle.std.specs.String.{string_bytes};
ghost use Rattle.std.specs.Io.KnownBytes.{Appends, Consumes, IsAtEnd};
ghost use Rattle.io_edge.specs.Edge.{faults_after};
ghost use Rattle.pam_top.specs.Answer.{AsksNotToRead, AsksPlainly, AsksToRead, Outcome, failed_to_read, failed_to_write, was_read, was_silent};

use crate::Status;
use crate::asking::{Asked, asked_of};
use crate::running::run_plain;
use crate::settings::read_words;
use crate::telling::{error_text, tell};
use crate::words_fault::WordsFault;
use aug_monoid::NoMemory;
use fork_join::Gate;
use io_edge::{Sink, Source};
use std::alloc::Global;
use std::marker::Sync;
use std::thread::Threads;
use tool_input::Tool;

fn waits(tool: Tool) -> bool
    ensures waiting { IsTrue result → (tool ≡ Tool.Serve) ⊎ (tool ≡ Tool.Gserve) }
    ensures others { (tool ≡ Tool.Serve) ⊎ (tool ≡ Tool.Gserve) → IsTrue result }
{
    matches!(tool, Tool::Serve | Tool::Gserve)
}

/// Whether `pam_plain` takes these words: they ask for neither serve nor gserve, or are not lawful. O(n)
/// for words of n bytes.
pub fn asks_plainly(alloc: Global, words: &[String]) -> Result<bool, NoMemory>
    ensures plain { IfOk result (λ is. IsTrue is → AsksPlainly (map string_bytes words.now)) }
    ensures others { IfOk result (λ is. AsksPlainly (map string_bytes words.now) → IsTrue is) }
{
    match read_words(alloc, words) {
        Ok(settings) => Ok(!waits(settings.tool)),
        Err(WordsFault::Usage) => Ok(true),
        Err(WordsFault::NoMemory) => Err(NoMemory),
    }
}

/// Runs `pam` with words that ask for neither serve nor gserve, as `asks_plainly` says: the same call without the bound `Wait`, so
/// that it returns.
pub fn pam_plain<R: Threads + Sync, S: Source, K: Sink, G: Gate>(
    rt: &R,
    alloc: Global,
    words: &[String],
    source: &mut S,
    sink: &mut K,
    gate: &G,
) -> Status
    requires plain { AsksPlainly (map string_bytes words.now) }
    ensures answer { (bytes : List ℕ) × (text : List ℕ) × Consumes (S.left source.old) (S.left source.new) bytes
        × Appends (K.written sink.old) (K.written sink.new) text × Outcome (map string_bytes words.now) bytes result text }
    ensures whole { was_read result ≡ true → AsksToRead (map string_bytes words.now) → (S.ended source.new ≡ true) × IsAtEnd (S.left source.new) }
    ensures unread { result ≡ Status.Usage → source.new ≡ source.old }
    ensures unasked { AsksNotToRead (map string_bytes words.now) → source.new ≡ source.old }
    ensures silent { was_silent result ≡ true → sink.new ≡ sink.old }
    ensures read_fault { S.faults source.new ≡ faults_after (failed_to_read result) (S.faults source.old) }
    ensures write_fault { K.faults sink.new ≡ faults_after (failed_to_write result) (K.faults sink.old) }
{
    match asked_of(alloc, words, source) {
        Asked::Commands { cut, list } => {
            tell(sink, Status::Ok, run_plain(rt, alloc, gate, cut, &list))
        }
        Asked::Bad(bad) => tell(sink, Status::BadRecord, error_text(alloc, &bad)),
        Asked::Ended(status) => status,
    }
}
