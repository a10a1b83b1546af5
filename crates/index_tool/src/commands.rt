//! The commands of the tool index, and their records: a row for each verb.
ghost use Rattle.std.specs.Prelude.{◌≡◌};
ghost use Rattle.csv.specs.Records.{fields_of};
ghost use Rattle.index_tool.specs.IndexRecords.{index_command};

use crate::term_fields::{number_term, some_terms, two_terms};
use csv::ByteRecord;
use script::fields::field_at;
use script::shapes::number_text;
use script::{Code, Command, Items, RecordFault};
use std::alloc::Global;

/// A command of the tool index. `place` is its record's number from 1. A term is the bytes of its
/// field: ASCII letters and digits, at least one.
#[derive(Drop)]
pub enum IndexCommand {
    /// Adds document `i` with this text.
    Doc { place: u64, i: u64, text: Items<u8> },
    /// Asks for the documents that have all these terms, at least one.
    And { place: u64, terms: Items<Items<u8>> },
    /// Asks for the documents that have one of these terms, at least one.
    Or { place: u64, terms: Items<Items<u8>> },
    /// Asks for the documents that have the first of two terms and not the second.
    Without { place: u64, terms: Items<Items<u8>> },
    /// Asks for the first `i` documents that have the term, by falling weight.
    Top { place: u64, i: u64, term: Items<u8> },
}

impl Command for IndexCommand {
    ghost reading = { index_command };

    #[tactic(auto, unfolding(crate::specs::IndexRecords::index_command))]
    fn read(alloc: Global, place: u64, row: &ByteRecord) -> Result<IndexCommand, RecordFault> {
        let verb = field_at(row, 0);
        if verb == b"doc".as_slice() {
            let (i, text) = number_text(alloc, row)?;
            Ok(IndexCommand::Doc { place, i, text })
        } else if verb == b"and".as_slice() {
            let terms = some_terms(alloc, row)?;
            Ok(IndexCommand::And { place, terms })
        } else if verb == b"or".as_slice() {
            let terms = some_terms(alloc, row)?;
            Ok(IndexCommand::Or { place, terms })
        } else if verb == b"without".as_slice() {
            let terms = two_terms(alloc, row)?;
            Ok(IndexCommand::Without { place, terms })
        } else if verb == b"top".as_slice() {
            let (i, term) = number_term(alloc, row)?;
            Ok(IndexCommand::Top { place, i, term })
        } else {
            Err(RecordFault::Bad(Code::Verb))
        }
    }
}
