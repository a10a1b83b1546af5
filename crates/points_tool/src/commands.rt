//! The commands of the tool points, and their records: a row for each verb.
ghost use Rattle.std.specs.Prelude.{◌≡◌};
ghost use Rattle.csv.specs.Records.{fields_of};
ghost use Rattle.points_tool.specs.PointsRecords.{points_command};

use crate::Weighed;
use crate::weighed::some_points;
use aug_monoid::Pair64;
use csv::ByteRecord;
use script::fields::field_at;
use script::shapes::{alone, four_numbers, some_pairs};
use script::{Code, Command, Items, RecordFault};
use std::alloc::Global;

/// A command of the tool points. `place` is its record's number from 1. A rectangle has the points
/// with x from `x1` to `x2` and y from `y1` to `y2`.
#[derive(Drop)]
pub enum PointsCommand {
    /// Sets the weights of these points in order.
    Add {
        place: u64,
        points: Items<Weighed>,
    },
    /// Removes the points at these places, x first.
    Del {
        place: u64,
        places: Items<Pair64>,
    },
    /// Asks how many points there are.
    Size {
        place: u64,
    },
    /// Asks for the sum of the weights and the count of the points in a rectangle.
    Sum {
        place: u64,
        x1: u64,
        x2: u64,
        y1: u64,
        y2: u64,
    },
    /// Asks for the points in a rectangle.
    List {
        place: u64,
        x1: u64,
        x2: u64,
        y1: u64,
        y2: u64,
    },
}

impl Command for PointsCommand {
    ghost reading = { points_command };

    #[tactic(auto, unfolding(crate::specs::PointsRecords::points_command))]
    fn read(alloc: Global, place: u64, row: &ByteRecord) -> Result<PointsCommand, RecordFault> {
        let verb = field_at(row, 0);
        if verb == b"add".as_slice() {
            let points = some_points(alloc, row)?;
            Ok(PointsCommand::Add { place, points })
        } else if verb == b"del".as_slice() {
            let places = some_pairs(alloc, row)?;
            Ok(PointsCommand::Del { place, places })
        } else if verb == b"size".as_slice() {
            alone(row)?;
            Ok(PointsCommand::Size { place })
        } else if verb == b"sum".as_slice() {
            let (x1, x2, y1, y2) = four_numbers(row)?;
            Ok(PointsCommand::Sum {
                place,
                x1,
                x2,
                y1,
                y2,
            })
        } else if verb == b"list".as_slice() {
            let (x1, x2, y1, y2) = four_numbers(row)?;
            Ok(PointsCommand::List {
                place,
                x1,
                x2,
                y1,
                y2,
            })
        } else {
            Err(RecordFault::Bad(Code::Verb))
        }
    }
}
