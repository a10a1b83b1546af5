//! The end of a run: its text is written, and its status is known.
ghost use Rattle.std.specs.Prelude.{◌≡◌, ◌++◌, [], true, List, ℕ, IfOk, OnErr};
ghost use Rattle.std.specs.Io.KnownBytes.{Appends};
ghost use Rattle.io_edge.specs.Edge.{faults_after};
ghost use Rattle.script.specs.Lines.{error_line_of};
ghost use Rattle.pam_top.specs.Answer.{failed_to_write, was_silent};
ghost use Rattle.pam_top.specs.Telling.{HasText, Tells};

use crate::Status;
use crate::writing::write_text;
use aug_monoid::NoMemory;
use io_edge::{Failed, Sink};
use script::{BadRecord, error_line};
use std::alloc::Global;

/// The text for a bad record.
pub(crate) fn error_text(alloc: Global, bad: &BadRecord) -> Result<Vec<u8>, NoMemory>
    ensures { IfOk result (λ text. text.items ≡ error_line_of bad.now) }
{
    let mut text = Vec::new(alloc);
    error_line(&mut text, bad)?;
    Ok(text)
}

/// Writes the text of a run with this status, and answers the status that it ends with.
pub(crate) fn tell<K: Sink>(sink: &mut K, told: Status, text: Result<Vec<u8>, NoMemory>) -> Status
    requires { HasText told }
    ensures text { (front : List ℕ) × Appends (K.written sink.old) (K.written sink.new) front × Tells (λ v. v.items) told text result front }
    ensures silent { was_silent result ≡ true → sink.new ≡ sink.old }
    ensures write_fault { K.faults sink.new ≡ faults_after (failed_to_write result) (K.faults sink.old) }
{
    match text {
        Ok(text) => match write_text(sink, &text) {
            Ok(()) => told,
            Err(Failed) => Status::WriteFault,
        },
        Err(NoMemory) => Status::NoMemory,
    }
}
