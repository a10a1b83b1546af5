//! The records of a tool that serves callers. The first one says how many callers there are, and the
//! later ones are read by it.
ghost use Rattle.std.specs.Prelude.{◌≡◌, ◌≤◌, IfOk, drop, length};
ghost use Rattle.csv.specs.Records.{fields_of};
ghost use Rattle.script.specs.InOrder.{commands_from};
ghost use Rattle.script.specs.Results.{Gives, GivesCode, at_place};
ghost use Rattle.serve_script.specs.Served as served;
ghost use Rattle.serve_script.specs.Served.{IsServeInput};

use crate::commands::ServedCommand;
use crate::words::{Operation, Query};
use csv::ByteRecord;
use script::fields::field_at;
use script::shapes::alone;
use script::{BadRecord, Code, Items, RecordFault, Records, ScriptFault, number};
use std::alloc::Global;

/// How many callers there may be.
const CALLERS: u64 = 64;

// The number of callers at a place.
fn callers_at(row: &ByteRecord, place: usize) -> Result<u64, Code>
    ensures { result ≡ served.callers_in (fields_of row.now) place }
{
    match number(field_at(row, place)) {
        Some(number) => {
            if 1 <= number && number <= CALLERS {
                Ok(number)
            } else {
                Err(Code::Callers)
            }
        }
        None => Err(Code::Callers),
    }
}

// One of some callers, at a place.
fn caller_at(row: &ByteRecord, place: usize, callers: u64) -> Result<u64, Code>
    ensures { result ≡ served.caller_in callers (fields_of row.now) place }
{
    match number(field_at(row, place)) {
        Some(number) => {
            if number < callers {
                Ok(number)
            } else {
                Err(Code::Caller)
            }
        }
        None => Err(Code::Caller),
    }
}

// The operations from the third field on.
fn operations<O: Operation>(alloc: Global, row: &ByteRecord) -> Result<Items<O>, RecordFault>
    requires { 2 ≤ length (fields_of row.now) }
    ensures { GivesCode result (served.operations_of O.operation_of O.numbers_in (drop 2 (fields_of row.now))) }
{
    let mut ops = Vec::with_capacity(alloc, (row.len() - 2) / 2)?; // an operation has a word and a number at least
    let mut place = 2;
    while place < row.len() {
        let op = O::operation_at(row, place)?;
        place += 1 + op.numbers();
        ops.push(op)?;
    }
    Ok(Items::new(ops))
}

// The fields of a verb, a caller and operations.
fn caller_operations<O: Operation>(
    alloc: Global,
    row: &ByteRecord,
    callers: u64,
) -> Result<(u64, Items<O>), RecordFault>
    ensures { GivesCode result (served.caller_operations O.operation_of O.numbers_in callers (fields_of row.now)) }
{
    if row.len() < 3 {
        return Err(RecordFault::Bad(Code::Fields));
    }
    let caller = caller_at(row, 1, callers)?;
    let ops = operations(alloc, row)?;
    Ok((caller, ops))
}

// The fields of a verb, a caller and a query.
fn caller_query<Q: Query>(row: &ByteRecord, callers: u64) -> Result<(u64, Q), Code>
    ensures { result ≡ served.caller_query Q.query_of callers (fields_of row.now) }
{
    if row.len() < 3 {
        return Err(Code::Fields);
    }
    let caller = caller_at(row, 1, callers)?;
    let query = Q::query(row)?;
    Ok((caller, query))
}

// What a record behind the first one says.
#[tactic(auto, unfolding(crate::specs::Served::later_command))]
fn later_command<O: Operation, Q: Query>(
    alloc: Global,
    callers: u64,
    place: u64,
    row: &ByteRecord,
) -> Result<ServedCommand<O, Q>, RecordFault>
    ensures { GivesCode result (served.later_command O.operation_of O.numbers_in Q.query_of callers place (fields_of row.now)) }
{
    let verb = field_at(row, 0);
    if verb == b"b".as_slice() {
        let (c, ops) = caller_operations(alloc, row, callers)?;
        Ok(ServedCommand::Batch { place, c, ops })
    } else if verb == b"r".as_slice() {
        let (c, query) = caller_query(row, callers)?;
        Ok(ServedCommand::Read { place, c, query })
    } else if verb == b"round".as_slice() {
        alone(row)?;
        Ok(ServedCommand::Round { place })
    } else {
        Err(RecordFault::Bad(Code::Verb))
    }
}

// The same, with the record's number at a fault.
fn read_later<O: Operation, Q: Query>(
    alloc: Global,
    callers: u64,
    place: u64,
    row: &ByteRecord,
) -> Result<ServedCommand<O, Q>, ScriptFault>
    ensures { Gives result (at_place place (served.later_command O.operation_of O.numbers_in Q.query_of callers place (fields_of row.now))) }
{
    match later_command(alloc, callers, place, row) {
        Ok(command) => Ok(command),
        Err(RecordFault::Bad(code)) => Err(ScriptFault::Bad(BadRecord { place, code })),
        Err(RecordFault::NoMemory) => Err(ScriptFault::NoMemory),
    }
}

// How many callers the first record says that there are.
#[tactic(auto, unfolding(crate::specs::Served::callers_of))]
fn first_callers(row: &ByteRecord) -> Result<u64, Code>
    ensures { result ≡ served.callers_of (fields_of row.now) }
{
    if field_at(row, 0) != b"serve".as_slice() {
        return Err(Code::Verb);
    }
    if row.len() != 2 {
        return Err(Code::Fields);
    }
    callers_at(row, 1)
}

// The first command and those of the records behind it.
fn read_all<O: Operation, Q: Query>(
    alloc: Global,
    callers: u64,
    records: &mut Records,
) -> Result<Items<ServedCommand<O, Q>>, ScriptFault>
    ensures { Gives result (served.with_callers callers (commands_from (served.later_command O.operation_of O.numbers_in Q.query_of callers) 2 records.old.left)) }
{
    let mut commands = Vec::new(alloc);
    commands.push(ServedCommand::Serve {
        place: 1,
        n: callers,
    })?;
    for place in 2..u64::MAX {
        if !records.advance()? {
            return Ok(Items::new(commands));
        }
        commands.push(read_later(alloc, callers, place, records.current())?)?;
    }
    Err(ScriptFault::NoMemory)
}

/// The commands of a tool that serves callers, or its input's first bad record. Time is linear in the input.
pub fn served_commands<O: Operation, Q: Query>(
    alloc: Global,
    bytes: &[u8],
) -> Result<Items<ServedCommand<O, Q>>, ScriptFault>
    ensures exact { Gives result (served.served_commands_of O.operation_of O.numbers_in Q.query_of bytes.now) }
    ensures lawful { IfOk result IsServeInput }
{
    let mut records = Records::new(alloc, bytes);
    if !records.advance()? {
        return Ok(Items::new(Vec::new(alloc)));
    }
    match first_callers(records.current()) {
        Ok(callers) => read_all(alloc, callers, &mut records),
        Err(code) => Err(ScriptFault::Bad(BadRecord { place: 1, code })),
    }
}
