//! The shapes of whole records: how many fields they have, and what each is.
ghost use Rattle.std.specs.Prelude.{◌≡◌};
ghost use Rattle.csv.specs.Records.{fields_of};
ghost use Rattle.script.specs.Results.{GivesCode};
ghost use Rattle.script.specs.Shapes as shape;

use crate::fields::{bytes_at, number_at, register_at};
use crate::lists::{numbers_from, pairs_from};
use crate::{Code, Items, RecordFault};
use aug_monoid::Pair64;
use csv::ByteRecord;
use std::alloc::Global;

/// The fields of a verb and a register.
pub fn register(row: &ByteRecord) -> Result<u64, Code>
    ensures { result ≡ shape.register (fields_of row.now) }
{
    if row.len() != 2 {
        return Err(Code::Fields);
    }
    register_at(row, 1)
}

/// The fields of a verb, a register and a number.
pub fn register_number(row: &ByteRecord) -> Result<(u64, u64), Code>
    ensures { result ≡ shape.register_number (fields_of row.now) }
{
    if row.len() != 3 {
        return Err(Code::Fields);
    }
    Ok((register_at(row, 1)?, number_at(row, 2)?))
}

/// The fields of a verb, a register and two numbers.
pub fn register_number_number(row: &ByteRecord) -> Result<(u64, u64, u64), Code>
    ensures { result ≡ shape.register_number_number (fields_of row.now) }
{
    if row.len() != 4 {
        return Err(Code::Fields);
    }
    Ok((register_at(row, 1)?, number_at(row, 2)?, number_at(row, 3)?))
}

/// The fields of a verb, a register and at least one number.
pub fn register_numbers(alloc: Global, row: &ByteRecord) -> Result<(u64, Items<u64>), RecordFault>
    ensures { GivesCode result (shape.register_numbers (fields_of row.now)) }
{
    if row.len() < 3 {
        return Err(RecordFault::Bad(Code::Fields));
    }
    let register = register_at(row, 1)?;
    let numbers = numbers_from(alloc, row)?;
    Ok((register, numbers))
}

/// The fields of a verb, a register and pairs of numbers.
pub fn register_pairs(alloc: Global, row: &ByteRecord) -> Result<(u64, Items<Pair64>), RecordFault>
    ensures { GivesCode result (shape.register_pairs (fields_of row.now)) }
{
    if row.len() < 2 || row.len() % 2 != 0 {
        return Err(RecordFault::Bad(Code::Fields));
    }
    let register = register_at(row, 1)?;
    let pairs = pairs_from(alloc, row, 2)?;
    Ok((register, pairs))
}

/// The fields of a verb, a register and at least one pair of numbers.
pub fn register_some_pairs(
    alloc: Global,
    row: &ByteRecord,
) -> Result<(u64, Items<Pair64>), RecordFault>
    ensures { GivesCode result (shape.register_some_pairs (fields_of row.now)) }
{
    if row.len() < 4 {
        return Err(RecordFault::Bad(Code::Fields));
    }
    register_pairs(alloc, row)
}

/// The fields of a verb and two registers.
pub fn two_registers(row: &ByteRecord) -> Result<(u64, u64), Code>
    ensures { result ≡ shape.two_registers (fields_of row.now) }
{
    if row.len() != 3 {
        return Err(Code::Fields);
    }
    Ok((register_at(row, 1)?, register_at(row, 2)?))
}

/// The fields of a verb, two registers and a number.
pub fn two_registers_number(row: &ByteRecord) -> Result<(u64, u64, u64), Code>
    ensures { result ≡ shape.two_registers_number (fields_of row.now) }
{
    if row.len() != 4 {
        return Err(Code::Fields);
    }
    Ok((
        register_at(row, 1)?,
        register_at(row, 2)?,
        number_at(row, 3)?,
    ))
}

/// The fields of a verb, two registers and two numbers.
pub fn two_registers_number_number(row: &ByteRecord) -> Result<(u64, u64, u64, u64), Code>
    ensures { result ≡ shape.two_registers_number_number (fields_of row.now) }
{
    if row.len() != 5 {
        return Err(Code::Fields);
    }
    let (first, second) = (register_at(row, 1)?, register_at(row, 2)?);
    Ok((first, second, number_at(row, 3)?, number_at(row, 4)?))
}

/// The fields of a verb and three registers.
pub fn three_registers(row: &ByteRecord) -> Result<(u64, u64, u64), Code>
    ensures { result ≡ shape.three_registers (fields_of row.now) }
{
    if row.len() != 4 {
        return Err(Code::Fields);
    }
    Ok((
        register_at(row, 1)?,
        register_at(row, 2)?,
        register_at(row, 3)?,
    ))
}

/// The fields of a verb alone.
pub fn alone(row: &ByteRecord) -> Result<(), Code>
    ensures { result ≡ shape.alone (fields_of row.now) }
{
    if row.len() != 1 {
        return Err(Code::Fields);
    }
    Ok(())
}

/// The fields of a verb and a number.
pub fn one_number(row: &ByteRecord) -> Result<u64, Code>
    ensures { result ≡ shape.one_number (fields_of row.now) }
{
    if row.len() != 2 {
        return Err(Code::Fields);
    }
    number_at(row, 1)
}

/// The fields of a verb and two numbers.
pub fn two_numbers(row: &ByteRecord) -> Result<(u64, u64), Code>
    ensures { result ≡ shape.two_numbers (fields_of row.now) }
{
    if row.len() != 3 {
        return Err(Code::Fields);
    }
    Ok((number_at(row, 1)?, number_at(row, 2)?))
}

/// The fields of a verb and four numbers.
pub fn four_numbers(row: &ByteRecord) -> Result<(u64, u64, u64, u64), Code>
    ensures { result ≡ shape.four_numbers (fields_of row.now) }
{
    if row.len() != 5 {
        return Err(Code::Fields);
    }
    let (first, second) = (number_at(row, 1)?, number_at(row, 2)?);
    Ok((first, second, number_at(row, 3)?, number_at(row, 4)?))
}

/// The fields of a verb and the two ends of an interval.
pub fn two_ends(row: &ByteRecord) -> Result<(u64, u64), Code>
    ensures { result ≡ shape.two_ends (fields_of row.now) }
{
    let (first, last) = two_numbers(row)?;
    if last < first {
        return Err(Code::Interval);
    }
    Ok((first, last))
}

/// The fields of a verb and at least one pair of numbers.
pub fn some_pairs(alloc: Global, row: &ByteRecord) -> Result<Items<Pair64>, RecordFault>
    ensures { GivesCode result (shape.some_pairs (fields_of row.now)) }
{
    if row.len() < 3 || row.len() % 2 != 1 {
        return Err(RecordFault::Bad(Code::Fields));
    }
    pairs_from(alloc, row, 1)
}

/// The fields of a verb, a number and a text.
pub fn number_text(alloc: Global, row: &ByteRecord) -> Result<(u64, Items<u8>), RecordFault>
    ensures { GivesCode result (shape.number_text (fields_of row.now)) }
{
    if row.len() != 3 {
        return Err(RecordFault::Bad(Code::Fields));
    }
    let number = number_at(row, 1)?;
    let text = bytes_at(alloc, row, 2)?;
    Ok((number, text))
}
