//! Writes a whole text.
ghost use Rattle.std.specs.Prelude.{◌≡◌, List, ℕ, MatchResult, is_err};
ghost use Rattle.std.specs.Io.KnownBytes.{Appends};
ghost use Rattle.io_edge.specs.Edge.{faults_after};
ghost use Rattle.script.specs.Lines.{IsPrefix};

use io_edge::{Failed, Sink};

/// Writes a text, or a first part of it where the sink fails.
pub(crate) fn write_text<K: Sink>(sink: &mut K, text: &[u8]) -> Result<(), Failed>
    ensures bytes { MatchResult result (λ _. Appends (K.written sink.old) (K.written sink.new) text.now)
        (λ _. (front : List ℕ) × Appends (K.written sink.old) (K.written sink.new) front × IsPrefix front text.now) }
    ensures cause { K.faults sink.new ≡ faults_after (is_err result) (K.faults sink.old) }
{
    let mut done = 0;
    for _ in 0..text.len() {
        let (_, rest) = text.split_at(done);
        if rest.is_empty() {
            return Ok(());
        }
        done += sink.write(rest)?;
    }
    Ok(())
}
