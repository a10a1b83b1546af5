//! The lines of a round, put in record order.
ghost use Rattle.std.specs.Prelude.{◌≡◌, OnOk};
ghost use Rattle.serve_callers.specs.Weaving.{Weaves, WeavesOne, WritesFirst};

use crate::lines::Lines;
use aug_monoid::NoMemory;
use serve_text::{Act, Record};

/// Appends the first line of a caller.
fn write_line(lines: &mut [Lines], caller: u32, text: &mut Vec<u8>) -> Result<(), NoMemory>
    ensures { OnOk result (WritesFirst caller lines.old lines.new text.old.items text.new.items) }
{
    let at = caller as usize;
    if at >= lines.len() {
        return Ok(());
    }
    lines[at].write_first(text)?;
    Ok(())
}

/// Appends the line of a record that is a read.
fn weave_record<O: Drop, Q: Drop>(
    record: &Record<O, Q>,
    lines: &mut [Lines],
    text: &mut Vec<u8>,
) -> Result<(), NoMemory>
    ensures { OnOk result (WeavesOne «record».now lines.old lines.new text.old.items text.new.items) }
{
    match &record.act {
        Act::Submit { batch: _ } => Ok(()),
        Act::Read { query: _ } => {
            write_line(lines, record.caller, text)?;
            Ok(())
        }
    }
}

/// Appends the lines of the reads in record order, from each caller's lines in order. After a refusal nothing is said of the lines
/// and the text.
pub fn weave<O: Drop, Q: Drop>(
    records: &[Record<O, Q>],
    lines: &mut [Lines],
    text: &mut Vec<u8>,
) -> Result<(), NoMemory>
    ensures { OnOk result (Weaves records.now lines.old text.old.items text.new.items) }
{
    for record in records {
        weave_record(record, lines, text)?;
    }
    Ok(())
}
