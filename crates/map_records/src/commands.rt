//! The commands of the tool map, and their records: a row for each verb.
ghost use Rattle.std.specs.Prelude.{◌≡◌};
ghost use Rattle.csv.specs.Records.{fields_of};
ghost use Rattle.map_records.specs.MapRecords.{entry_command, joint_command, map_command, part_command, range_command};

use crate::How;
use crate::how::three_registers_how;
use crate::shapes::{
    register, register_number, register_number_number, register_numbers, register_pairs,
    register_some_pairs, three_registers, two_registers, two_registers_number,
    two_registers_number_number,
};
use aug_monoid::Pair64;
use csv::ByteRecord;
use script::fields::field_at;
use script::{Code, Command, Items, RecordFault};
use std::alloc::Global;

/// A command of the tool map. `d`, `m`, `a` and `b` are registers from 0 to 15, and `d` is the one
/// that changes. A command that reads the register which it changes reads it as it was before.
#[derive(Drop)]
pub enum MapCommand {
    /// Sets the value at `k` in `d`.
    Put { d: u8, k: u64, v: u64 },
    /// Removes `k` from `d`.
    Del { d: u8, k: u64 },
    /// Asks for the value at `k` in `m`.
    Get { m: u8, k: u64 },
    /// Asks how many entries `m` has.
    Size { m: u8 },
    /// Asks for the sum and the greatest of the values at keys from `lo` to `hi` in `m`.
    Sum { m: u8, lo: u64, hi: u64 },
    /// Asks for the sum and the greatest of all values in `m`.
    Fold { m: u8 },
    /// Asks for the greatest of the values at keys from `lo` to `hi` in `m`.
    Max { m: u8, lo: u64, hi: u64 },
    /// Asks how many keys of `m` are less than `k`.
    Rank { m: u8, k: u64 },
    /// Asks for the entry of `m` at place `i` from 0.
    Select { m: u8, i: u64 },
    /// Asks for the entry of `m` with the least key greater than `k`.
    Next { m: u8, k: u64 },
    /// Asks for the entry of `m` with the greatest key less than `k`.
    Prev { m: u8, k: u64 },
    /// Asks for the entries of `m` with keys from `lo` to `hi`.
    List { m: u8, lo: u64, hi: u64 },
    /// Asks how many values of `m` lie from `lo` to `hi`.
    Count { m: u8, lo: u64, hi: u64 },
    /// Makes `d` what `m` is.
    Copy { d: u8, m: u8 },
    /// Makes `d` empty.
    Clear { d: u8 },
    /// Makes `d` what puts of these pairs in order make of the empty map.
    Build { d: u8, pairs: Items<Pair64> },
    /// Puts these pairs into `d` in order.
    Mput { d: u8, pairs: Items<Pair64> },
    /// Removes these keys from `d`.
    Mdel { d: u8, keys: Items<u64> },
    /// Makes `d` the union of `a` and `b`.
    Union { d: u8, a: u8, b: u8, how: How },
    /// Makes `d` the intersection of `a` and `b`.
    Inter { d: u8, a: u8, b: u8, how: How },
    /// Makes `d` the entries of `a` whose keys `b` hasn't.
    Diff { d: u8, a: u8, b: u8 },
    /// Makes `d` the entries of `a` followed by those of `b`, where all keys of `a` are less.
    Cat { d: u8, a: u8, b: u8 },
    /// Makes `d` the entries of `m` with keys less than `k`.
    Below { d: u8, m: u8, k: u64 },
    /// Makes `d` the entries of `m` with keys greater than `k`.
    Above { d: u8, m: u8, k: u64 },
    /// Makes `d` the entries of `m` with keys from `lo` to `hi`.
    Slice { d: u8, m: u8, lo: u64, hi: u64 },
    /// Makes `d` the entries of `m` whose values are at least `t`.
    Atleast { d: u8, m: u8, t: u64 },
    /// Makes `d` the entries of `m` whose values lie from `lo` to `hi`.
    Filter { d: u8, m: u8, lo: u64, hi: u64 },
}

// Commands that make a register a part of another one.
#[tactic(auto, unfolding(crate::specs::MapRecords::part_command))]
fn part_command(row: &ByteRecord) -> Result<MapCommand, Code>
    ensures { result ≡ part_command (fields_of row.now) }
{
    let verb = field_at(row, 0);
    if verb == b"below".as_slice() {
        let (d, m, k) = two_registers_number(row)?;
        Ok(MapCommand::Below { d, m, k })
    } else if verb == b"above".as_slice() {
        let (d, m, k) = two_registers_number(row)?;
        Ok(MapCommand::Above { d, m, k })
    } else if verb == b"slice".as_slice() {
        let (d, m, lo, hi) = two_registers_number_number(row)?;
        Ok(MapCommand::Slice { d, m, lo, hi })
    } else if verb == b"atleast".as_slice() {
        let (d, m, t) = two_registers_number(row)?;
        Ok(MapCommand::Atleast { d, m, t })
    } else if verb == b"filter".as_slice() {
        let (d, m, lo, hi) = two_registers_number_number(row)?;
        Ok(MapCommand::Filter { d, m, lo, hi })
    } else {
        Err(Code::Verb)
    }
}

// Commands that copy a register, or make it of two.
#[tactic(auto, unfolding(crate::specs::MapRecords::joint_command))]
fn joint_command(row: &ByteRecord) -> Result<MapCommand, Code>
    ensures { result ≡ joint_command (fields_of row.now) }
{
    let verb = field_at(row, 0);
    if verb == b"copy".as_slice() {
        let (d, m) = two_registers(row)?;
        Ok(MapCommand::Copy { d, m })
    } else if verb == b"union".as_slice() {
        let (d, a, b, how) = three_registers_how(row)?;
        Ok(MapCommand::Union { d, a, b, how })
    } else if verb == b"inter".as_slice() {
        let (d, a, b, how) = three_registers_how(row)?;
        Ok(MapCommand::Inter { d, a, b, how })
    } else if verb == b"diff".as_slice() {
        let (d, a, b) = three_registers(row)?;
        Ok(MapCommand::Diff { d, a, b })
    } else if verb == b"cat".as_slice() {
        let (d, a, b) = three_registers(row)?;
        Ok(MapCommand::Cat { d, a, b })
    } else {
        part_command(row)
    }
}

// Commands that ask of a range of keys or values.
#[tactic(auto, unfolding(crate::specs::MapRecords::range_command))]
fn range_command(row: &ByteRecord) -> Result<MapCommand, Code>
    ensures { result ≡ range_command (fields_of row.now) }
{
    let verb = field_at(row, 0);
    if verb == b"sum".as_slice() {
        let (m, lo, hi) = register_number_number(row)?;
        Ok(MapCommand::Sum { m, lo, hi })
    } else if verb == b"max".as_slice() {
        let (m, lo, hi) = register_number_number(row)?;
        Ok(MapCommand::Max { m, lo, hi })
    } else if verb == b"list".as_slice() {
        let (m, lo, hi) = register_number_number(row)?;
        Ok(MapCommand::List { m, lo, hi })
    } else if verb == b"count".as_slice() {
        let (m, lo, hi) = register_number_number(row)?;
        Ok(MapCommand::Count { m, lo, hi })
    } else {
        joint_command(row)
    }
}

// Commands that ask of one entry, or of the whole map.
#[tactic(auto, unfolding(crate::specs::MapRecords::entry_command))]
fn entry_command(row: &ByteRecord) -> Result<MapCommand, Code>
    ensures { result ≡ entry_command (fields_of row.now) }
{
    let verb = field_at(row, 0);
    if verb == b"get".as_slice() {
        let (m, k) = register_number(row)?;
        Ok(MapCommand::Get { m, k })
    } else if verb == b"size".as_slice() {
        let m = register(row)?;
        Ok(MapCommand::Size { m })
    } else if verb == b"fold".as_slice() {
        let m = register(row)?;
        Ok(MapCommand::Fold { m })
    } else if verb == b"rank".as_slice() {
        let (m, k) = register_number(row)?;
        Ok(MapCommand::Rank { m, k })
    } else if verb == b"select".as_slice() {
        let (m, i) = register_number(row)?;
        Ok(MapCommand::Select { m, i })
    } else if verb == b"next".as_slice() {
        let (m, k) = register_number(row)?;
        Ok(MapCommand::Next { m, k })
    } else if verb == b"prev".as_slice() {
        let (m, k) = register_number(row)?;
        Ok(MapCommand::Prev { m, k })
    } else {
        range_command(row)
    }
}

impl Command for MapCommand {
    ghost reading = { λ _. map_command };

    #[tactic(auto, unfolding(crate::specs::MapRecords::map_command))]
    fn read(alloc: Global, _place: u64, row: &ByteRecord) -> Result<MapCommand, RecordFault> {
        let verb = field_at(row, 0);
        if verb == b"put".as_slice() {
            let (d, k, v) = register_number_number(row)?;
            Ok(MapCommand::Put { d, k, v })
        } else if verb == b"del".as_slice() {
            let (d, k) = register_number(row)?;
            Ok(MapCommand::Del { d, k })
        } else if verb == b"clear".as_slice() {
            let d = register(row)?;
            Ok(MapCommand::Clear { d })
        } else if verb == b"build".as_slice() {
            let (d, pairs) = register_pairs(alloc, row)?;
            Ok(MapCommand::Build { d, pairs })
        } else if verb == b"mput".as_slice() {
            let (d, pairs) = register_some_pairs(alloc, row)?;
            Ok(MapCommand::Mput { d, pairs })
        } else if verb == b"mdel".as_slice() {
            let (d, keys) = register_numbers(alloc, row)?;
            Ok(MapCommand::Mdel { d, keys })
        } else {
            Ok(entry_command(row)?)
        }
    }
}
