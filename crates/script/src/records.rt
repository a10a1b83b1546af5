//! The records of a text, one after another.
ghost use Rattle.std.specs.Prelude.{◌≡◌, [], ◌∷◌, IfOk, MatchBool};
ghost use Rattle.csv.specs.Records.{fields_of};
ghost use Rattle.script.specs.Records.{records_of};

use aug_monoid::NoMemory;
use csv::{ByteRecord, ErrorKind, Reader, ReaderBuilder};
use std::alloc::Global;
use std::marker::Model;

/// The records of a text: the one at hand, and those that are left.
#[derive(Drop)]
pub struct Records<'a> {
    reader: Reader<&'a [u8]>,
    current: ByteRecord,
    done: bool,
}

impl<'a> Model for Records<'a> {
    ghost use Rattle.script.specs.Reading.{Feed, IsBetween, left_of};
    ghost use Rattle.std.specs.Prelude.{◌≡◌, ◌⊎◌, true};

    ghost Value = { Feed };

    ghost view = { λ r. record { current = r.current; left = left_of r.done r.reader } };

    ghost invariant = { λ r. (r.done ≡ true) ⊎ IsBetween r.reader };
}

impl<'a> Records<'a> {
    pub fn new(alloc: Global, text: &'a [u8]) -> Records<'a>
        ensures { result.left ≡ records_of text.now }
    {
        let reader = ReaderBuilder::new()
            .has_headers(false)
            .flexible(true)
            .from_reader(alloc, text);
        Records {
            reader,
            current: ByteRecord::new(alloc),
            done: false,
        }
    }

    /// Goes on to the next record, and says whether there is one.
    pub fn advance(&mut self) -> Result<bool, NoMemory>
        ensures { IfOk result (λ found. MatchBool found (self.old.left ≡ fields_of self.new.current ∷ self.new.left) (self.old.left ≡ [])) }
    {
        if self.done {
            return Ok(false);
        }
        match self.reader.read_byte_record(&mut self.current) {
            Ok(true) => Ok(true),
            Ok(false) => {
                self.done = true;
                Ok(false)
            }
            Err(error) => {
                self.done = true;
                match error.kind() {
                    // Bytes in memory are read without an error of their own.
                    ErrorKind::OutOfMemory | ErrorKind::Io(_) => Err(NoMemory),
                    _ => unreachable!(),
                }
            }
        }
    }

    /// The record at hand.
    pub fn current(&self) -> &ByteRecord
        ensures { result.now ≡ self.now.current }
    {
        &self.current
    }
}
