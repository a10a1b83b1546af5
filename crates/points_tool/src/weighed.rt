//! Points with their weights, and the fields of a record that spell them.
ghost use Rattle.std.specs.Prelude.{◌≡◌, ◌+◌, ◌<◌, ◌%◌, drop, length};
ghost use Rattle.csv.specs.Records.{fields_of};
ghost use Rattle.points_tool.specs.Weighed.{point_of, points_of, some_points};
ghost use Rattle.script.specs.Fields.{field};
ghost use Rattle.script.specs.Results.{GivesCode};

use csv::ByteRecord;
use script::fields::number_at;
use script::{Code, Items, RecordFault};
use std::alloc::Global;

/// A point with its weight.
#[derive(Clone, Copy, Debug, PartialEq, Eq)]
pub struct Weighed {
    pub x: u64,
    pub y: u64,
    pub w: u64,
}

// The point and its weight at a place and the next two.
fn point_at(row: &ByteRecord, place: usize) -> Result<Weighed, Code>
    requires { place + 1 < length (fields_of row.now) }
    ensures { let fields = fields_of row.now in
        result ≡ point_of (field fields place) (field fields (place + 1)) (field fields (place + 2)) }
{
    let _size = row.len(); // for the proof alone: places of fields fit their type
    let x = number_at(row, place)?;
    let y = number_at(row, place + 1)?;
    let w = number_at(row, place + 2)?;
    Ok(Weighed { x, y, w })
}

// The points with their weights from the second field on.
fn points_from(alloc: Global, row: &ByteRecord) -> Result<Items<Weighed>, RecordFault>
    requires { length (fields_of row.now) % 3 ≡ 1 }
    ensures { GivesCode result (points_of (drop 1 (fields_of row.now))) }
{
    let count = row.len() / 3;
    let mut points = Vec::new(alloc);
    for i in 0..count {
        points.push(point_at(row, 3 * i + 1)?)?;
    }
    Ok(Items::new(points))
}

/// The fields of a verb and at least one point with its weight.
pub(crate) fn some_points(alloc: Global, row: &ByteRecord) -> Result<Items<Weighed>, RecordFault>
    ensures { GivesCode result (some_points (fields_of row.now)) }
{
    if row.len() < 4 || row.len() % 3 != 1 {
        return Err(RecordFault::Bad(Code::Fields));
    }
    points_from(alloc, row)
}
