//! The commands of the tool interval, and their records: a row for each verb.
ghost use Rattle.std.specs.Prelude.{◌≡◌};
ghost use Rattle.csv.specs.Records.{fields_of};
ghost use Rattle.interval_tool.specs.IntervalRecords.{interval_command};

use csv::ByteRecord;
use script::fields::field_at;
use script::shapes::{alone, one_number, two_ends};
use script::{Code, Command, RecordFault};
use std::alloc::Global;

/// A command of the tool interval. `place` is its record's number from 1. An interval has both its
/// ends, `l` and `r`, and `l` is at most `r`.
#[derive(Clone, Copy, Debug, PartialEq, Eq)]
pub enum IntervalCommand {
    /// Adds the interval.
    Add { place: u64, l: u64, r: u64 },
    /// Removes the interval, which need not be there.
    Del { place: u64, l: u64, r: u64 },
    /// Asks how many intervals there are.
    Size { place: u64 },
    /// Asks whether an interval has `p`.
    Any { place: u64, p: u64 },
    /// Asks for the intervals that have `p`.
    Stab { place: u64, p: u64 },
    /// Asks for the intervals that have a number from `lo` to `hi`, where `lo` is at most `hi`.
    Over { place: u64, lo: u64, hi: u64 },
}

impl Command for IntervalCommand {
    ghost reading = { interval_command };

    #[tactic(auto, unfolding(crate::specs::IntervalRecords::interval_command))]
    fn read(_alloc: Global, place: u64, row: &ByteRecord) -> Result<IntervalCommand, RecordFault> {
        let verb = field_at(row, 0);
        if verb == b"add".as_slice() {
            let (l, r) = two_ends(row)?;
            Ok(IntervalCommand::Add { place, l, r })
        } else if verb == b"del".as_slice() {
            let (l, r) = two_ends(row)?;
            Ok(IntervalCommand::Del { place, l, r })
        } else if verb == b"size".as_slice() {
            alone(row)?;
            Ok(IntervalCommand::Size { place })
        } else if verb == b"any".as_slice() {
            let p = one_number(row)?;
            Ok(IntervalCommand::Any { place, p })
        } else if verb == b"stab".as_slice() {
            let p = one_number(row)?;
            Ok(IntervalCommand::Stab { place, p })
        } else if verb == b"over".as_slice() {
            let (lo, hi) = two_ends(row)?;
            Ok(IntervalCommand::Over { place, lo, hi })
        } else {
            Err(RecordFault::Bad(Code::Verb))
        }
    }
}
