//! What a command changes.
ghost use Rattle.std.specs.Prelude.{IfOk};
ghost use Rattle.script.specs.Lines.{line_of};
ghost use Rattle.seq_tool.specs.Effects.{IsEffect, replies};

use crate::registers::Register;
use aug_monoid::NoMemory;
use script::line;

/// A register's new sequence.
#[derive(Drop)]
pub(crate) struct Change {
    pub(crate) d: u64,
    pub(crate) seq: Register,
}

/// Appends the reply of a command that changes no register.
pub(crate) fn no_change(
    text: &mut Vec<u8>,
    word: &str,
    numbers: &[u64],
) -> Result<Option<Change>, NoMemory>
    ensures { IfOk result (λ change. IsEffect (replies (line_of word.now numbers.now)) change text.old.items text.new.items) }
{
    line(text, word, numbers)?;
    Ok(None)
}
