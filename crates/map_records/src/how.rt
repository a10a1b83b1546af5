//! How two values are combined, and the fields of a record that tell it.
ghost use Rattle.std.specs.Prelude.{◌≡◌};
ghost use Rattle.csv.specs.Records.{fields_of};
ghost use Rattle.map_records.specs.How.{how_in, how_named, resolved_by, three_registers_how};

use crate::shapes::register_at;
use aug_monoid::{NoMemory, Resolve};
use csv::ByteRecord;
use script::Code;
use script::fields::field_at;
use std::alloc::Global;

/// How the value of `a` and the value of `b` are combined at a key that both have.
#[derive(Clone, Copy, Debug, PartialEq, Eq)]
pub enum How {
    /// The value of `a`.
    First,
    /// The value of `b`.
    Second,
    /// Their saturating sum.
    Sum,
    /// The greater one.
    Max,
}

impl Resolve<u64> for How {
    ghost resolved = { resolved_by };

    fn resolve(&self, _alloc: Global, a: &u64, b: &u64) -> Result<u64, NoMemory> {
        Ok(match self {
            How::First => *a,
            How::Second => *b,
            How::Sum => a.saturating_add(*b),
            How::Max => *a.max(b),
        })
    }
}

#[tactic(auto, unfolding(crate::specs::How::how_named))]
fn how_of(word: &[u8]) -> Option<How>
    ensures { result ≡ how_named word.now }
{
    if word == b"first".as_slice() {
        Some(How::First)
    } else if word == b"second".as_slice() {
        Some(How::Second)
    } else if word == b"sum".as_slice() {
        Some(How::Sum)
    } else if word == b"max".as_slice() {
        Some(How::Max)
    } else {
        None
    }
}

// How two values are combined, by the word at a place.
fn how_at(row: &ByteRecord, place: usize) -> Result<How, Code>
    ensures { result ≡ how_in (fields_of row.now) place }
{
    how_of(field_at(row, place)).ok_or(Code::How)
}

/// The fields of a verb, three registers and how two values are combined.
pub(crate) fn three_registers_how(row: &ByteRecord) -> Result<(u8, u8, u8, How), Code>
    ensures { result ≡ three_registers_how (fields_of row.now) }
{
    if row.len() != 5 {
        return Err(Code::Fields);
    }
    let (first, second) = (register_at(row, 1)?, register_at(row, 2)?);
    Ok((first, second, register_at(row, 3)?, how_at(row, 4)?))
}
