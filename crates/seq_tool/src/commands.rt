//! The commands of the tool seq, and their records: a row for each verb.
ghost use Rattle.std.specs.Prelude.{◌≡◌};
ghost use Rattle.csv.specs.Records.{fields_of};
ghost use Rattle.seq_tool.specs.SeqRecords.{asking_command, making_command, seq_command};

use csv::ByteRecord;
use script::fields::field_at;
use script::shapes::{
    register, register_number, register_number_number, register_numbers, three_registers,
    two_registers, two_registers_number,
};
use script::{Code, Command, Items, RecordFault};
use std::alloc::Global;

/// A command of the tool seq. `place` is its record's number from 1; `d`, `m`, `a` and `b` are registers from 0 to 15, and `d` is
/// the one that changes. A command that reads the register which it changes reads it as it was before. Items have places from 0.
#[derive(Drop)]
pub enum SeqCommand {
    /// Adds these items, at least one, at the end of `d`.
    Push {
        place: u64,
        d: u64,
        items: Items<u64>,
    },
    /// Makes `d` what `a` is, followed by what `b` is.
    Append {
        place: u64,
        d: u64,
        a: u64,
        b: u64,
    },
    /// Makes `d` the first `n` items of `m`.
    Take {
        place: u64,
        d: u64,
        m: u64,
        n: u64,
    },
    /// Makes `d` what `m` is without its first `n` items.
    Skip {
        place: u64,
        d: u64,
        m: u64,
        n: u64,
    },
    /// Makes `d` what `m` is, from the last item to the first.
    Reverse {
        place: u64,
        d: u64,
        m: u64,
    },
    /// Makes the item of `d` at place `i` this one.
    Set {
        place: u64,
        d: u64,
        i: u64,
        v: u64,
    },
    /// Asks for the item of `m` at place `i`.
    At {
        place: u64,
        m: u64,
        i: u64,
    },
    /// Asks for the sum and the greatest of the first `n` items of `m` after its first `i` items.
    Fold {
        place: u64,
        m: u64,
        i: u64,
        n: u64,
    },
    /// Asks for these items.
    List {
        place: u64,
        m: u64,
        i: u64,
        n: u64,
    },
    /// Asks how many items `m` has.
    Size {
        place: u64,
        m: u64,
    },
}

// Commands that ask.
#[tactic(auto, unfolding(crate::specs::SeqRecords::asking_command))]
fn asking_command(place: u64, row: &ByteRecord) -> Result<SeqCommand, Code>
    ensures { result ≡ asking_command place (fields_of row.now) }
{
    let verb = field_at(row, 0);
    if verb == b"at".as_slice() {
        let (m, i) = register_number(row)?;
        Ok(SeqCommand::At { place, m, i })
    } else if verb == b"fold".as_slice() {
        let (m, i, n) = register_number_number(row)?;
        Ok(SeqCommand::Fold { place, m, i, n })
    } else if verb == b"list".as_slice() {
        let (m, i, n) = register_number_number(row)?;
        Ok(SeqCommand::List { place, m, i, n })
    } else if verb == b"size".as_slice() {
        let m = register(row)?;
        Ok(SeqCommand::Size { place, m })
    } else {
        Err(Code::Verb)
    }
}

// Commands that make a register of one or two others.
#[tactic(auto, unfolding(crate::specs::SeqRecords::making_command))]
fn making_command(place: u64, row: &ByteRecord) -> Result<SeqCommand, Code>
    ensures { result ≡ making_command place (fields_of row.now) }
{
    let verb = field_at(row, 0);
    if verb == b"append".as_slice() {
        let (d, a, b) = three_registers(row)?;
        Ok(SeqCommand::Append { place, d, a, b })
    } else if verb == b"take".as_slice() {
        let (d, m, n) = two_registers_number(row)?;
        Ok(SeqCommand::Take { place, d, m, n })
    } else if verb == b"skip".as_slice() {
        let (d, m, n) = two_registers_number(row)?;
        Ok(SeqCommand::Skip { place, d, m, n })
    } else if verb == b"reverse".as_slice() {
        let (d, m) = two_registers(row)?;
        Ok(SeqCommand::Reverse { place, d, m })
    } else {
        asking_command(place, row)
    }
}

impl Command for SeqCommand {
    ghost reading = { seq_command };

    #[tactic(auto, unfolding(crate::specs::SeqRecords::seq_command))]
    fn read(alloc: Global, place: u64, row: &ByteRecord) -> Result<SeqCommand, RecordFault> {
        let verb = field_at(row, 0);
        if verb == b"push".as_slice() {
            let (d, items) = register_numbers(alloc, row)?;
            Ok(SeqCommand::Push { place, d, items })
        } else if verb == b"set".as_slice() {
            let (d, i, v) = register_number_number(row)?;
            Ok(SeqCommand::Set { place, d, i, v })
        } else {
            Ok(making_command(place, row)?)
        }
    }
}
