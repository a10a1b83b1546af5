//! Commands of any tool, read from records.
ghost use Rattle.std.specs.Prelude.{◌≡◌, ℕ, List, Result};
ghost use Rattle.csv.specs.Records.{fields_of};
ghost use Rattle.script.specs.InOrder.{commands_from};
ghost use Rattle.script.specs.Records.{records_of};
ghost use Rattle.script.specs.Results.{Gives, GivesCode, at_place};

use crate::fault::RecordFault;
use crate::records::Records;
use crate::{BadRecord, Items, ScriptFault};
use csv::ByteRecord;
use std::alloc::Global;

/// A command of a tool.
pub trait Command: Sized + Drop {
    ghost use Rattle.std.specs.Prelude.{ℕ, List, Result};
    ghost use Rattle.script.specs.declared.fault.Code.{Code};

    /// What a record says, by its number and its fields.
    ghost reading: { ℕ → List (List ℕ) → Result Self Code };

    /// The command of the record with this number.
    fn read(alloc: Global, place: u64, row: &ByteRecord) -> Result<Self, RecordFault>
        ensures { GivesCode result (reading place (fields_of row.now)) };
}

// A record's command, with the record's number at a fault.
fn read_at<C: Command>(alloc: Global, place: u64, row: &ByteRecord) -> Result<C, ScriptFault>
    ensures { Gives result (at_place place (C.reading place (fields_of row.now))) }
{
    match C::read(alloc, place, row) {
        Ok(command) => Ok(command),
        Err(RecordFault::Bad(code)) => Err(ScriptFault::Bad(BadRecord { place, code })),
        Err(RecordFault::NoMemory) => Err(ScriptFault::NoMemory),
    }
}

/// The commands of a text's records, or the first bad record.
pub fn read_all<C: Command>(alloc: Global, text: &[u8]) -> Result<Items<C>, ScriptFault>
    ensures { Gives result (commands_from C.reading 1 (records_of text.now)) }
{
    let mut records = Records::new(alloc, text);
    let mut commands = Vec::new(alloc);
    for place in 1..u64::MAX {
        if !records.advance()? {
            return Ok(Items::new(commands));
        }
        commands.push(read_at(alloc, place, records.current())?)?;
    }
    Err(ScriptFault::NoMemory)
}
