//! The whole program.
ghost use Rattle.std.specs.Prelude.{◌≡◌, true, List, ℕ, map};
ghost use Rattle.std.specs.String.{string_bytes};
ghost use Rattle.std.specs.Io.KnownBytes.{Appends, Consumes, IsAtEnd};
ghost use Rattle.io_edge.specs.Edge.{faults_after};
ghost use Rattle.pam_top.specs.Answer.{AsksNotToRead, AsksToRead, Outcome, failed_to_read, failed_to_write, was_read, was_silent};

use crate::Status;
use crate::asking::{Asked, asked_of};
use crate::running::run;
use crate::telling::{error_text, tell};
use fork_join::{Gate, On};
use io_edge::{Sink, Source};
use std::alloc::Global;
use std::marker::Sync;
use std::sync::Wait;
use std::thread::Threads;

/// Runs `pam` with the words after its name: reads the whole input from `source`, where the tool reads one, then runs its
/// commands, then writes the replies, or the line of the first bad record, to `sink`. What was taken and what was written are the
/// `bytes` and the `text` of an `Outcome`, on which neither the runtime nor the gate has a bearing. Its code waits in the tools serve
/// and gserve alone, which no clause says: `pam_plain` is the same call without these two, and has no bound `Wait`.
pub fn pam<R: Threads + Wait + Sync, S: Source, K: Sink, G: Gate>(
    rt: &R,
    alloc: Global,
    words: &[String],
    source: &mut S,
    sink: &mut K,
    gate: &G,
) -> Status
    ensures answer { (bytes : List ℕ) × (text : List ℕ) × Consumes (S.left source.old) (S.left source.new) bytes
        × Appends (K.written sink.old) (K.written sink.new) text × Outcome (map string_bytes words.now) bytes result text }
    ensures whole { was_read result ≡ true → AsksToRead (map string_bytes words.now) → (S.ended source.new ≡ true) × IsAtEnd (S.left source.new) }
    ensures unread { result ≡ Status.Usage → source.new ≡ source.old }
    ensures unasked { AsksNotToRead (map string_bytes words.now) → source.new ≡ source.old }
    ensures silent { was_silent result ≡ true → sink.new ≡ sink.old }
    ensures read_fault { S.faults source.new ≡ faults_after (failed_to_read result) (S.faults source.old) }
    ensures write_fault { K.faults sink.new ≡ faults_after (failed_to_write result) (K.faults sink.old) }
{
    match asked_of(alloc, words, source) {
        Asked::Commands { cut, list } => {
            tell(sink, Status::Ok, run(On { rt, gate, cut }, alloc, &list))
        }
        Asked::Bad(bad) => tell(sink, Status::BadRecord, error_text(alloc, &bad)),
        Asked::Ended(status) => status,
    }
}
