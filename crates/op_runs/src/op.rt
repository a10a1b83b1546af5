//! Operations on a map from numbers to numbers.
ghost use Rattle.std.specs.Prelude.{◌≡◌};
ghost use Rattle.op_runs.specs.Steps.{change_of, is_wipe};

use crate::outcome::Outcome;
use aug_monoid::{NoMemory, Share};
use std::alloc::Global;

/// An operation on a map from numbers to numbers.
#[derive(Clone, Copy, Debug, PartialEq, Eq)]
pub enum Op {
    /// Sets a key to a value.
    Put { key: u64, val: u64 },
    /// Removes a key, which need not be there.
    Del { key: u64 },
    /// Adds to the value of a key, up to `u64::MAX`; a key that is not there is set.
    Add { key: u64, val: u64 },
    /// Removes all keys from `lo` to `hi`, both included; none where `lo` is greater than `hi`.
    Wipe { lo: u64, hi: u64 },
}

impl Op {
    /// The key and what the operation comes to there. None for a wipe.
    pub(crate) fn change(&self) -> Option<(u64, Outcome)>
        ensures { result ≡ change_of self.now }
    {
        match *self {
            Op::Put { key, val } => Some((key, Outcome::Set { val })),
            Op::Del { key } => Some((key, Outcome::Gone)),
            Op::Add { key, val } => Some((key, Outcome::Added { val })),
            Op::Wipe { lo: _, hi: _ } => None,
        }
    }

    /// Whether the operation is a wipe.
    pub(crate) fn is_wipe(&self) -> bool
        ensures { result ≡ is_wipe self.now }
    {
        matches!(self, Op::Wipe { lo: _, hi: _ })
    }
}

impl Share for Op {
    ghost never_refuses = { Unit {0} };

    fn share(&self, _alloc: Global) -> Result<Op, NoMemory> {
        Ok(*self)
    }

    fn is_total() -> bool {
        true
    }
}
