//! Operations and queries, which a word says and the numbers behind it.
ghost use Rattle.std.specs.Prelude.{◌≡◌, ◌+◌, ◌<◌, ◌≤◌, drop, length};
ghost use Rattle.csv.specs.Records.{fields_of};
ghost use Rattle.script.specs.Fields.{field};
ghost use Rattle.serve_script.specs.Words as words;

use csv::ByteRecord;
use script::Code;
use script::fields::number_at;

/// An operation of a batch.
pub trait Operation: Drop {
    ghost use Rattle.std.specs.Prelude.{◌≤◌, ℕ, List, Result, IfOk, length};
    ghost use Rattle.script.specs.declared.fault.Code.{Code};

    /// The operation of a word and the fields behind it.
    ghost operation_of: { List ℕ → List (List ℕ) → Result Self Code };

    /// How many numbers an operation has.
    ghost numbers_in: { Self → ℕ };

    /// They stand behind its word.
    ghost fits: { (word : List ℕ) (fields : List (List ℕ)) → IfOk (operation_of word fields) (λ operation. numbers_in operation ≤ length fields) };

    /// The operation of the word at a place and the numbers behind it.
    fn operation_at(row: &ByteRecord, place: usize) -> Result<Self, Code>
    where
        Self: Sized,
        requires { place < length (fields_of row.now) }
        ensures { result ≡ operation_of (field (fields_of row.now) place) (drop (place + 1) (fields_of row.now)) };

    /// How many numbers it has.
    fn numbers(&self) -> usize
        ensures { result ≡ numbers_in self.now };
}

/// A query of a read, whose word is the third field of its record.
pub trait Query: Drop {
    ghost use Rattle.std.specs.Prelude.{ℕ, List, Result};
    ghost use Rattle.script.specs.declared.fault.Code.{Code};

    /// The query of a record.
    ghost query_of: { List (List ℕ) → Result Self Code };

    /// The query of a record.
    fn query(row: &ByteRecord) -> Result<Self, Code>
    where
        Self: Sized,
        ensures { result ≡ query_of (fields_of row.now) };
}

/// The number from a place on.
pub fn next_number(row: &ByteRecord, place: usize) -> Result<u64, Code>
    requires { place ≤ length (fields_of row.now) }
    ensures { result ≡ words.next_number (drop place (fields_of row.now)) }
{
    if row.len() - place < 1 {
        return Err(Code::Fields);
    }
    number_at(row, place)
}

/// The two numbers from a place on.
pub fn next_numbers(row: &ByteRecord, place: usize) -> Result<(u64, u64), Code>
    requires { place ≤ length (fields_of row.now) }
    ensures { result ≡ words.next_numbers (drop place (fields_of row.now)) }
{
    if row.len() - place < 2 {
        return Err(Code::Fields);
    }
    Ok((number_at(row, place)?, number_at(row, place + 1)?))
}

/// The two numbers behind a query's word.
pub fn query_numbers(row: &ByteRecord) -> Result<(u64, u64), Code>
    ensures { result ≡ words.query_numbers (fields_of row.now) }
{
    if row.len() != 5 {
        return Err(Code::Fields);
    }
    Ok((number_at(row, 3)?, number_at(row, 4)?))
}

/// The number behind a query's word.
pub fn query_number(row: &ByteRecord) -> Result<u64, Code>
    ensures { result ≡ words.query_number (fields_of row.now) }
{
    if row.len() != 4 {
        return Err(Code::Fields);
    }
    number_at(row, 3)
}

/// That nothing stands behind a query's word.
pub fn no_query_number(row: &ByteRecord) -> Result<(), Code>
    ensures { result ≡ words.no_query_number (fields_of row.now) }
{
    if row.len() != 3 {
        return Err(Code::Fields);
    }
    Ok(())
}
