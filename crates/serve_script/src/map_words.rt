//! The words of the tool serve.
ghost use Rattle.std.specs.Prelude.{◌≡◌, ◌+◌, ◌<◌, drop, length};
ghost use Rattle.csv.specs.Records.{fields_of};
ghost use Rattle.script.specs.Fields.{field};
ghost use Rattle.serve_script.specs.Serve.{numbers_in, operation_of, query_of};
ghost use Rattle.serve_script.specs.ServeLaws.{operation_fits};

use crate::words::{
    Operation, Query, next_number, next_numbers, no_query_number, query_number, query_numbers,
};
use csv::ByteRecord;
use op_runs::Op;
use script::Code;
use script::fields::field_at;

/// A question about the served map.
#[derive(Clone, Copy, Debug, PartialEq, Eq)]
pub enum ServeQuery {
    /// Asks for the value of `k`.
    Get { k: u64 },
    /// Asks for the sum and the greatest of the values of the keys from `lo` to `hi`.
    Sum { lo: u64, hi: u64 },
    /// Asks how many keys are less than `k`.
    Rank { k: u64 },
    /// Asks how many keys there are.
    Size,
}

impl Operation for Op {
    ghost operation_of = { operation_of };

    ghost numbers_in = { numbers_in };

    ghost fits = { operation_fits };

    #[tactic(auto, unfolding(crate::specs::Serve::operation_of))]
    fn operation_at(row: &ByteRecord, place: usize) -> Result<Op, Code> {
        let _size = row.len(); // for the proof alone: places of fields fit their type
        let word = field_at(row, place);
        if word == b"put".as_slice() {
            let (key, val) = next_numbers(row, place + 1)?;
            Ok(Op::Put { key, val })
        } else if word == b"del".as_slice() {
            let key = next_number(row, place + 1)?;
            Ok(Op::Del { key })
        } else if word == b"add".as_slice() {
            let (key, val) = next_numbers(row, place + 1)?;
            Ok(Op::Add { key, val })
        } else if word == b"wipe".as_slice() {
            let (lo, hi) = next_numbers(row, place + 1)?;
            Ok(Op::Wipe { lo, hi })
        } else {
            Err(Code::Op)
        }
    }

    fn numbers(&self) -> usize {
        match self {
            Op::Put { .. } | Op::Add { .. } | Op::Wipe { .. } => 2,
            Op::Del { .. } => 1,
        }
    }
}

impl Query for ServeQuery {
    ghost query_of = { query_of };

    #[tactic(auto, unfolding(crate::specs::Serve::query_of))]
    fn query(row: &ByteRecord) -> Result<ServeQuery, Code> {
        let word = field_at(row, 2);
        if word == b"get".as_slice() {
            let k = query_number(row)?;
            Ok(ServeQuery::Get { k })
        } else if word == b"sum".as_slice() {
            let (lo, hi) = query_numbers(row)?;
            Ok(ServeQuery::Sum { lo, hi })
        } else if word == b"rank".as_slice() {
            let k = query_number(row)?;
            Ok(ServeQuery::Rank { k })
        } else if word == b"size".as_slice() {
            no_query_number(row)?;
            Ok(ServeQuery::Size)
        } else {
            Err(Code::Op)
        }
    }
}
