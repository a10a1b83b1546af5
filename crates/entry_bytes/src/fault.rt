//! Why some bytes are those of no map.
ghost use Rattle.std.specs.Prelude.{◌≡◌};
ghost use Rattle.entry_bytes.specs.declared.fault.DecodeFault.TheVariants as fault;

use aug_monoid::NoMemory;
use std::alloc::{AllocError, AllocFailed};
use thiserror::Error;

/// Why some bytes are those of no map, by what is at fault first.
#[derive(Clone, Copy, Debug, PartialEq, Eq, Error)]
pub enum DecodeFault {
    /// The bytes end early.
    #[error("the bytes end early")]
    Short,
    /// The bytes don't begin with the magic `PAMB`.
    #[error("no map")]
    Magic,
    /// The version is not 1.
    #[error("another version")]
    Version,
    /// The kind is not 1, a map from `u64` to `u64`.
    #[error("another kind of map")]
    Kind,
    /// A number is not in its shortest form, or is no `u64`.
    #[error("no number")]
    Number,
    /// A gap after the first entry is 0, or a key is no `u64`.
    #[error("keys don't rise")]
    Order,
    /// There are bytes behind the checksum.
    #[error("bytes behind the checksum")]
    Trailing,
    /// The checksum is another one.
    #[error("another checksum")]
    Checksum,
    /// There is no memory for the entries, which says nothing of the bytes.
    #[error("NoMemory")]
    NoMemory,
}

impl From<NoMemory> for DecodeFault {
    ghost from_gives = { λ _ e. e ≡ fault.NoMemory };

    fn from(_: NoMemory) -> Self {
        DecodeFault::NoMemory
    }
}

impl From<AllocError> for DecodeFault {
    ghost from_gives = { λ _ e. e ≡ fault.NoMemory };

    fn from(_: AllocError) -> Self {
        DecodeFault::NoMemory
    }
}

impl<T: Drop> From<AllocFailed<T>> for DecodeFault {
    ghost from_gives = { λ _ e. e ≡ fault.NoMemory };

    fn from(_: AllocFailed<T>) -> Self {
        DecodeFault::NoMemory
    }
}
