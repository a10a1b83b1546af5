//! Lists of fields: numbers and pairs up to the record's end.
ghost use Rattle.std.specs.Prelude.{◌≡◌, ◌-◌, ◌≤◌, ◌%◌, drop, length};
ghost use Rattle.csv.specs.Records.{fields_of};
ghost use Rattle.script.specs.Fields.{numbers_of, pairs_of};
ghost use Rattle.script.specs.Results.{GivesCode};

use crate::fields::{number_at, pair_at};
use crate::{Items, RecordFault};
use aug_monoid::Pair64;
use csv::ByteRecord;
use std::alloc::Global;

/// The numbers from the third field on.
pub(crate) fn numbers_from(alloc: Global, row: &ByteRecord) -> Result<Items<u64>, RecordFault>
    requires { 2 ≤ length (fields_of row.now) }
    ensures { GivesCode result (numbers_of (drop 2 (fields_of row.now))) }
{
    let mut numbers = Vec::new(alloc);
    for place in 2..row.len() {
        numbers.push(number_at(row, place)?)?;
    }
    Ok(Items::new(numbers))
}

/// The pairs of numbers from a place on.
pub(crate) fn pairs_from(
    alloc: Global,
    row: &ByteRecord,
    start: usize,
) -> Result<Items<Pair64>, RecordFault>
    requires some { start ≤ length (fields_of row.now) }
    requires even { (length (fields_of row.now) - start) % 2 ≡ 0 }
    ensures { GivesCode result (pairs_of (drop start (fields_of row.now))) }
{
    let count = (row.len() - start) / 2;
    let mut pairs = Vec::new(alloc);
    for i in 0..count {
        pairs.push(pair_at(row, 2 * i + start)?)?;
    }
    Ok(Items::new(pairs))
}
