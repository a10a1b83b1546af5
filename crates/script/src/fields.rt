//! The fields of a record: numbers, registers and texts by their places.
ghost use Rattle.std.specs.Prelude.{◌≡◌, ◌+◌, ◌<◌, IfOk, length};
ghost use Rattle.csv.specs.Records.{fields_of};
ghost use Rattle.script.specs.Fields.{field, number_in, pair_of, register_in};

use crate::numbers::number;
use crate::{Code, Items};
use aug_monoid::Pair64;
use csv::ByteRecord;
use std::alloc::{AllocError, Global};

/// How many registers there are.
const REGISTERS: u64 = 16;

/// The field at a place, or nothing past the record's end.
pub fn field_at(row: &ByteRecord, place: usize) -> &[u8]
    ensures { result.now ≡ field (fields_of row.now) place }
{
    row.get(place).unwrap_or(&[])
}

/// The number at a place.
pub fn number_at(row: &ByteRecord, place: usize) -> Result<u64, Code>
    ensures { result ≡ number_in (fields_of row.now) place }
{
    number(field_at(row, place)).ok_or(Code::Number)
}

/// The register at a place.
pub fn register_at(row: &ByteRecord, place: usize) -> Result<u64, Code>
    ensures { result ≡ register_in (fields_of row.now) place }
{
    match number(field_at(row, place)) {
        Some(number) => {
            if number < REGISTERS {
                Ok(number)
            } else {
                Err(Code::Register)
            }
        }
        None => Err(Code::Register),
    }
}

/// The pair of numbers at a place and the next one.
pub fn pair_at(row: &ByteRecord, place: usize) -> Result<Pair64, Code>
    requires { place < length (fields_of row.now) }
    ensures { result ≡ pair_of (field (fields_of row.now) place) (field (fields_of row.now) (place + 1)) }
{
    let _size = row.len(); // for the proof alone: the next place fits its type
    let first = number_at(row, place)?;
    let second = number_at(row, place + 1)?;
    Ok(Pair64 { first, second })
}

/// The bytes of the field at a place.
pub fn bytes_at(alloc: Global, row: &ByteRecord, place: usize) -> Result<Items<u8>, AllocError>
    ensures { IfOk result (λ bytes. bytes ≡ field (fields_of row.now) place) }
{
    Ok(Items::new(Vec::from_slice(alloc, field_at(row, place))?))
}
