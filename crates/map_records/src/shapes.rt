//! The shapes of records that begin with registers, where each register takes a byte.
ghost use Rattle.std.specs.Prelude.{◌≡◌};
ghost use Rattle.csv.specs.Records.{fields_of};
ghost use Rattle.script.specs.Fields.{register_in};
ghost use Rattle.script.specs.Results.{GivesCode};
ghost use Rattle.script.specs.Shapes as shape;

use aug_monoid::Pair64;
use csv::ByteRecord;
use script::{Code, Items, RecordFault, fields, shapes};
use std::alloc::Global;

/// The register at a place.
#[tactic(auto, using(crate::proofs::RegisterLow::register_low))]
pub(crate) fn register_at(row: &ByteRecord, place: usize) -> Result<u8, Code>
    ensures { result ≡ register_in (fields_of row.now) place }
{
    let register = fields::register_at(row, place)?;
    Ok(register as u8)
}

/// The fields of a verb and a register.
#[tactic(auto, using(script::proofs::RegisterFacts::register_lows))]
pub(crate) fn register(row: &ByteRecord) -> Result<u8, Code>
    ensures { result ≡ shape.register (fields_of row.now) }
{
    let register = shapes::register(row)?;
    Ok(register as u8)
}

/// The fields of a verb, a register and a number.
#[tactic(auto, using(script::proofs::RegisterFacts::register_number_lows))]
pub(crate) fn register_number(row: &ByteRecord) -> Result<(u8, u64), Code>
    ensures { result ≡ shape.register_number (fields_of row.now) }
{
    let (register, number) = shapes::register_number(row)?;
    Ok((register as u8, number))
}

/// The fields of a verb, a register and two numbers.
#[tactic(auto, using(script::proofs::RegisterFacts::register_number_number_lows))]
pub(crate) fn register_number_number(row: &ByteRecord) -> Result<(u8, u64, u64), Code>
    ensures { result ≡ shape.register_number_number (fields_of row.now) }
{
    let (register, first, second) = shapes::register_number_number(row)?;
    Ok((register as u8, first, second))
}

/// The fields of a verb, a register and at least one number.
#[tactic(auto, using(script::proofs::RegisterFacts::register_numbers_lows))]
pub(crate) fn register_numbers(
    alloc: Global,
    row: &ByteRecord,
) -> Result<(u8, Items<u64>), RecordFault>
    ensures { GivesCode result (shape.register_numbers (fields_of row.now)) }
{
    let (register, numbers) = shapes::register_numbers(alloc, row)?;
    Ok((register as u8, numbers))
}

/// The fields of a verb, a register and pairs of numbers.
#[tactic(auto, using(script::proofs::RegisterFacts::register_pairs_lows))]
pub(crate) fn register_pairs(
    alloc: Global,
    row: &ByteRecord,
) -> Result<(u8, Items<Pair64>), RecordFault>
    ensures { GivesCode result (shape.register_pairs (fields_of row.now)) }
{
    let (register, pairs) = shapes::register_pairs(alloc, row)?;
    Ok((register as u8, pairs))
}

/// The fields of a verb, a register and at least one pair of numbers.
#[tactic(auto, using(script::proofs::RegisterFacts::register_some_pairs_lows))]
pub(crate) fn register_some_pairs(
    alloc: Global,
    row: &ByteRecord,
) -> Result<(u8, Items<Pair64>), RecordFault>
    ensures { GivesCode result (shape.register_some_pairs (fields_of row.now)) }
{
    let (register, pairs) = shapes::register_some_pairs(alloc, row)?;
    Ok((register as u8, pairs))
}

/// The fields of a verb and two registers.
#[tactic(auto, using(script::proofs::RegisterFacts::two_registers_lows))]
pub(crate) fn two_registers(row: &ByteRecord) -> Result<(u8, u8), Code>
    ensures { result ≡ shape.two_registers (fields_of row.now) }
{
    let (first, second) = shapes::two_registers(row)?;
    Ok((first as u8, second as u8))
}

/// The fields of a verb, two registers and a number.
#[tactic(auto, using(script::proofs::RegisterFacts::two_registers_number_lows))]
pub(crate) fn two_registers_number(row: &ByteRecord) -> Result<(u8, u8, u64), Code>
    ensures { result ≡ shape.two_registers_number (fields_of row.now) }
{
    let (first, second, number) = shapes::two_registers_number(row)?;
    Ok((first as u8, second as u8, number))
}

/// The fields of a verb, two registers and two numbers.
#[tactic(auto, using(script::proofs::RegisterFacts::two_registers_number_number_lows))]
pub(crate) fn two_registers_number_number(row: &ByteRecord) -> Result<(u8, u8, u64, u64), Code>
    ensures { result ≡ shape.two_registers_number_number (fields_of row.now) }
{
    let (first, second, lo, hi) = shapes::two_registers_number_number(row)?;
    Ok((first as u8, second as u8, lo, hi))
}

/// The fields of a verb and three registers.
#[tactic(auto, using(script::proofs::RegisterFacts::three_registers_lows))]
pub(crate) fn three_registers(row: &ByteRecord) -> Result<(u8, u8, u8), Code>
    ensures { result ≡ shape.three_registers (fields_of row.now) }
{
    let (first, second, third) = shapes::three_registers(row)?;
    Ok((first as u8, second as u8, third as u8))
}
