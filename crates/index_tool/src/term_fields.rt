//! The fields of a record that are terms.
ghost use Rattle.std.specs.Prelude.{◌≤◌, drop, length};
ghost use Rattle.csv.specs.Records.{fields_of};
ghost use Rattle.index_tool.specs.Terms.{number_term, some_terms, term_in, terms_of, two_terms};
ghost use Rattle.script.specs.Results.{GivesCode};

use csv::ByteRecord;
use inverted_index::is_term;
use script::fields::{bytes_at, field_at, number_at};
use script::{Code, Items, RecordFault};
use std::alloc::Global;

// The term at a place.
fn term_at(alloc: Global, row: &ByteRecord, place: usize) -> Result<Items<u8>, RecordFault>
    ensures { GivesCode result (term_in (fields_of row.now) place) }
{
    if !is_term(field_at(row, place)) {
        return Err(RecordFault::Bad(Code::Term));
    }
    Ok(bytes_at(alloc, row, place)?)
}

// The terms from the second field on.
fn terms_from(alloc: Global, row: &ByteRecord) -> Result<Items<Items<u8>>, RecordFault>
    requires { 1 ≤ length (fields_of row.now) }
    ensures { GivesCode result (terms_of (drop 1 (fields_of row.now))) }
{
    let mut terms = Vec::new(alloc);
    for place in 1..row.len() {
        terms.push(term_at(alloc, row, place)?)?;
    }
    Ok(Items::new(terms))
}

/// The fields of a verb and at least one term.
pub(crate) fn some_terms(alloc: Global, row: &ByteRecord) -> Result<Items<Items<u8>>, RecordFault>
    ensures { GivesCode result (some_terms (fields_of row.now)) }
{
    if row.len() < 2 {
        return Err(RecordFault::Bad(Code::Fields));
    }
    terms_from(alloc, row)
}

/// The fields of a verb and two terms.
pub(crate) fn two_terms(alloc: Global, row: &ByteRecord) -> Result<Items<Items<u8>>, RecordFault>
    ensures { GivesCode result (two_terms (fields_of row.now)) }
{
    if row.len() != 3 {
        return Err(RecordFault::Bad(Code::Fields));
    }
    terms_from(alloc, row)
}

/// The fields of a verb, a number and a term.
pub(crate) fn number_term(alloc: Global, row: &ByteRecord) -> Result<(u64, Items<u8>), RecordFault>
    ensures { GivesCode result (number_term (fields_of row.now)) }
{
    if row.len() != 3 {
        return Err(RecordFault::Bad(Code::Fields));
    }
    let number = number_at(row, 1)?;
    let term = term_at(alloc, row, 2)?;
    Ok((number, term))
}
