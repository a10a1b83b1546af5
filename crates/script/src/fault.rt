//! What may be wrong with a record, and the fault of a whole input.
ghost use Rattle.std.specs.Prelude.{◌≡◌};
ghost use Rattle.script.specs.declared.fault.RecordFault.TheVariants as record_fault;
ghost use Rattle.script.specs.declared.fault.ScriptFault.TheVariants as fault;

use aug_monoid::NoMemory;
use std::alloc::{AllocError, AllocFailed};
use thiserror::Error;

/// Why a record is bad. A record is checked in this order, and the first fault counts: its verb,
/// how many fields it has, its other fields from left to right, and how these compare.
#[derive(Clone, Copy, Debug, PartialEq, Eq)]
pub enum Code {
    /// The first field is no verb of the tool.
    Verb,
    /// The verb has another number of fields.
    Fields,
    /// A field is no lawful number.
    Number,
    /// A field is no number from 0 to 15.
    Register,
    /// A field is no word for how two values are combined.
    How,
    /// A field is no term: it is empty, or has a byte that is no ASCII letter or digit.
    Term,
    /// A field is no number of callers, which are 1 to 64.
    Callers,
    /// A field is no caller of the input.
    Caller,
    /// A field is no word of an operation or a query.
    Op,
    /// The first end of an interval is greater than its last.
    Interval,
    /// There is no line `run` where one is wanted.
    Run,
}

/// The first bad record, by its number from 1.
#[derive(Clone, Copy, Debug, PartialEq, Eq)]
pub struct BadRecord {
    pub place: u64,
    pub code: Code,
}

/// Why one record gave no command.
#[derive(Debug, Drop, PartialEq, Eq)]
pub enum RecordFault {
    Bad(Code),
    NoMemory,
}

impl From<Code> for RecordFault {
    ghost from_gives = { λ c e. e ≡ record_fault.Bad c };

    fn from(code: Code) -> Self {
        RecordFault::Bad(code)
    }
}

impl<T: Drop> From<AllocFailed<T>> for RecordFault {
    ghost from_gives = { λ _ e. e ≡ record_fault.NoMemory };

    fn from(_: AllocFailed<T>) -> Self {
        RecordFault::NoMemory
    }
}

impl From<AllocError> for RecordFault {
    ghost from_gives = { λ _ e. e ≡ record_fault.NoMemory };

    fn from(_: AllocError) -> Self {
        RecordFault::NoMemory
    }
}

/// Why an input gave no commands.
#[derive(Debug, Drop, PartialEq, Eq, Error)]
pub enum ScriptFault {
    #[error("Bad")]
    Bad(BadRecord),
    #[error("NoMemory")]
    NoMemory,
}

impl From<NoMemory> for ScriptFault {
    ghost from_gives = { λ _ e. e ≡ fault.NoMemory };

    fn from(_: NoMemory) -> Self {
        ScriptFault::NoMemory
    }
}

impl From<AllocError> for ScriptFault {
    ghost from_gives = { λ _ e. e ≡ fault.NoMemory };

    fn from(_: AllocError) -> Self {
        ScriptFault::NoMemory
    }
}

impl<T: Drop> From<AllocFailed<T>> for ScriptFault {
    ghost from_gives = { λ _ e. e ≡ fault.NoMemory };

    fn from(_: AllocFailed<T>) -> Self {
        ScriptFault::NoMemory
    }
}
