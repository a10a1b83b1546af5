//! Why words give no settings.
ghost use Rattle.std.specs.Prelude.{◌≡◌, ◌≢◌, ◌↔◌};
ghost use Rattle.clap.specs.Words.{kind_of};
ghost use Rattle.clap.specs.declared.error.kind.ErrorKind.TheVariants.{OutOfMemory};
ghost use Rattle.pam_top.specs.declared.words_fault.WordsFault.TheVariants as fault;

use clap::error::ErrorKind;
use std::alloc::{AllocError, AllocFailed};

/// Why the words give no settings.
#[derive(Debug, Drop, PartialEq, Eq)]
pub(crate) enum WordsFault {
    /// The words are not lawful.
    Usage,
    /// Memory for reading them could not be had.
    NoMemory,
}

impl From<AllocError> for WordsFault {
    ghost from_gives = { λ _ e. e ≡ fault.NoMemory };

    fn from(_: AllocError) -> Self {
        WordsFault::NoMemory
    }
}

impl<T: Drop> From<AllocFailed<T>> for WordsFault {
    ghost from_gives = { λ _ e. e ≡ fault.NoMemory };

    fn from(_: AllocFailed<T>) -> Self {
        WordsFault::NoMemory
    }
}

impl From<clap::Error> for WordsFault {
    ghost from_gives = { λ error e. (e ≡ fault.Usage) ↔ (kind_of error ≢ OutOfMemory) };

    fn from(error: clap::Error) -> Self {
        match error.kind() {
            ErrorKind::OutOfMemory => WordsFault::NoMemory,
            _ => WordsFault::Usage,
        }
    }
}
