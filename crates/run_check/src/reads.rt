//! The reads of the records.
ghost use Rattle.std.specs.Prelude.{◌≡◌, ◌+◌, ◌≤◌, ◌++◌, IfOk, OnOk, map, length};
ghost use Rattle.serve_text.specs.Records.{read_by, reads_of};
ghost use Rattle.run_check.specs.Reading.{HaveNumbers, asked_in, numbers_in, numbers_told};
ghost use Rattle.run_check.specs.Verdicts.{places_of};

use aug_monoid::NoMemory;
use run_text::Reply;
use serve_text::{Act, Record};
use std::alloc::Global;
use std::marker::Model;

/// A read, with the number of the version that answers it.
#[derive(Drop)]
pub(crate) struct Reading<'a, Q: Drop> {
    pub(crate) place: u64,
    pub(crate) caller: u32,
    pub(crate) round: u64,
    pub(crate) query: &'a Q,
    pub(crate) number: u64,
}

impl<'a, Q: Drop> Model for Reading<'a, Q> {
    ghost use Rattle.serve_text.specs.Records.{Answered};

    ghost Value = { Answered Q };

    ghost view = { λ a. record { asked = record { place = a.place; caller = a.caller; round = a.round; query = a.query.now }; number = a.number } };
}

/// Appends the number of a record that is a read.
fn push_place<O: Drop, Q: Drop>(
    record: &Record<O, Q>,
    places: &mut Vec<u64>,
) -> Result<(), NoMemory>
    ensures { OnOk result (places.new.items ≡ places.old.items ++ map (λ q. q.place) (read_by «record».now.place «record».now.caller «record».now.round «record».now.act)) }
{
    match &record.act {
        Act::Submit { batch: _ } => Ok(()),
        Act::Read { query: _ } => {
            places.push(record.place)?;
            Ok(())
        }
    }
}

/// The numbers of the records that are reads.
pub(crate) fn read_places<O: Drop, Q: Drop>(
    alloc: Global,
    records: &[Record<O, Q>],
) -> Result<Vec<u64>, NoMemory>
    ensures { IfOk result (λ places. places.items ≡ places_of records.now) }
{
    let mut places = Vec::new(alloc);
    for record in records {
        push_place(record, &mut places)?;
    }
    Ok(places)
}

/// Appends a record that is a read, with the number that the next of the lines tells.
#[tactic(auto, using(crate::proofs::ReadLists::numbered_told))]
fn push_reading<'a, O: Drop, Q: Drop>(
    record: &'a Record<O, Q>,
    replies: &[Reply<'_>],
    reads: &mut Vec<Reading<'a, Q>>,
) -> Result<(), NoMemory>
    requires { length reads.old.items + length (read_by «record».now.place «record».now.caller «record».now.round «record».now.act) ≤ length replies.now }
    ensures asked { OnOk result (asked_in reads.new.items ≡ asked_in reads.old.items ++ read_by «record».entry.now.place «record».entry.now.caller «record».entry.now.round «record».entry.now.act) }
    ensures numbers { OnOk result (HaveNumbers reads.old.items (numbers_told replies.now) → HaveNumbers reads.new.items (numbers_told replies.now)) }
{
    match &record.act {
        Act::Submit { batch: _ } => Ok(()),
        Act::Read { query } => {
            let reply = &replies[reads.len()];
            reads.push(Reading {
                place: record.place,
                caller: record.caller,
                round: record.round,
                query,
                number: reply.number,
            })?;
            Ok(())
        }
    }
}

/// The reads of the records, each with the number that its line tells.
pub(crate) fn readings<'a, O: Drop, Q: Drop>(
    alloc: Global,
    records: &'a [Record<O, Q>],
    replies: &[Reply<'_>],
) -> Result<Vec<Reading<'a, Q>>, NoMemory>
    requires { length replies.now ≡ length (places_of records.now) }
    ensures asked { IfOk result (λ reads. asked_in reads.items ≡ reads_of records.entry.now) }
    ensures numbers { IfOk result (λ reads. numbers_in reads.items ≡ numbers_told replies.now) }
{
    let mut reads = Vec::with_capacity(alloc, replies.len())?;
    for record in records {
        push_reading(record, replies, &mut reads)?;
    }
    Ok(reads)
}
