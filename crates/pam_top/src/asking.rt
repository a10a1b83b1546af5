//! What words and input ask for.
ghost use Rattle.std.specs.Prelude.{◌≡◌, true, List, ℕ, IfOk, map};
ghost use Rattle.std.specs.String.{string_bytes};
ghost use Rattle.std.specs.Io.KnownBytes.{Consumes, IsAtEnd};
ghost use Rattle.io_edge.specs.Edge.{faults_after};
ghost use Rattle.tool_input.specs.Lawful.{IsLawful};
ghost use Rattle.script.specs.Results.{Gives};
ghost use Rattle.pam_top.specs.Answer.{AsksNotToRead, AsksToRead, asked_by};
ghost use Rattle.pam_top.specs.Asking.{IsAsked, has_failed, has_input};
ghost use Rattle.pam_top.specs.Settings.{IsInRange};
ghost use Rattle.pam_top.specs.declared.asking.Asked.TheVariants as asked;
ghost use Rattle.pam_top.specs.declared.status.Status.TheVariants as status;

use crate::Status;
use crate::reading::{Stop, input_of, reads_input};
use crate::sample::sample_commands;
use crate::settings::{Settings, read_words};
use crate::words_fault::WordsFault;
use fork_join::Cut;
use io_edge::Source;
use script::{BadRecord, ScriptFault};
use std::alloc::Global;
use tool_input::{Parsed, commands};

/// What words and input ask for.
#[derive(Drop)]
pub(crate) enum Asked {
    /// These commands, with this cut.
    Commands { cut: Cut, list: Parsed },
    /// Nothing, since this is the first bad record.
    Bad(BadRecord),
    /// Nothing: the run ends here.
    Ended(Status),
}

// The commands that the settings and the input ask for, or the first bad record.
fn commands_for(alloc: Global, settings: &Settings, bytes: &[u8]) -> Result<Parsed, ScriptFault>
    requires { IsInRange settings.now }
    ensures exact { Gives result (asked_by settings.now bytes.now) }
    ensures lawful { IfOk result IsLawful }
{
    if reads_input(settings.tool) {
        commands(alloc, settings.tool, bytes)
    } else {
        Ok(sample_commands(alloc, settings.seed, settings.size)?)
    }
}

/// Reads the words, then the whole input of their tool, then its commands.
pub(crate) fn asked_of<S: Source>(alloc: Global, words: &[String], source: &mut S) -> Asked
    ensures asked { (bytes : List ℕ) × Consumes (S.left source.old) (S.left source.new) bytes × IsAsked (map string_bytes words.now) bytes result }
    ensures whole { has_input result ≡ true → AsksToRead (map string_bytes words.now) → (S.ended source.new ≡ true) × IsAtEnd (S.left source.new) }
    ensures unread { result ≡ asked.Ended status.Usage → source.new ≡ source.old }
    ensures unasked { AsksNotToRead (map string_bytes words.now) → source.new ≡ source.old }
    ensures read_fault { S.faults source.new ≡ faults_after (has_failed result) (S.faults source.old) }
{
    let settings = match read_words(alloc, words) {
        Ok(settings) => settings,
        Err(WordsFault::Usage) => return Asked::Ended(Status::Usage),
        Err(WordsFault::NoMemory) => return Asked::Ended(Status::NoMemory),
    };
    let input = match input_of(alloc, settings.tool, source) {
        Ok(input) => input,
        Err(Stop::TooLarge) => return Asked::Ended(Status::TooLarge),
        Err(Stop::Fault) => return Asked::Ended(Status::ReadFault),
        Err(Stop::NoMemory) => return Asked::Ended(Status::NoMemory),
    };
    match commands_for(alloc, &settings, &input) {
        Ok(list) => {
            let cut = Cut::new(settings.workers, settings.grain);
            Asked::Commands { cut, list }
        }
        Err(ScriptFault::Bad(bad)) => Asked::Bad(bad),
        Err(ScriptFault::NoMemory) => Asked::Ended(Status::NoMemory),
    }
}
