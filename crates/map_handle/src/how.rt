//! How the value at a key that two maps have is made.
ghost use Rattle.std.specs.Prelude.{◌≡◌};
ghost use Rattle.map_handle.specs.Hows.{how_at};

use aug_monoid::{NoMemory, Resolve};
use std::alloc::Global;

/// How the value at a key that two maps have is made of the value in the first and the value in the second.
#[derive(Drop)]
pub enum How {
    First,
    Second,
    /// A sum above `u64::MAX` is `u64::MAX`.
    Sum,
    Max,
}

impl Resolve<u64> for How {
    ghost use Rattle.map_handle.specs.Hows.{resolved_by};

    ghost resolved = { λ h a b. resolved_by h a b };

    fn resolve(&self, _alloc: Global, a: &u64, b: &u64) -> Result<u64, NoMemory> {
        Ok(match self {
            How::First => *a,
            How::Second => *b,
            How::Sum => a.saturating_add(*b),
            How::Max => *a.max(b),
        })
    }
}

/// The way that a number of C's names.
pub fn how_of(number: u8) -> Option<How>
    ensures { result ≡ how_at number }
{
    if number == 0 {
        Some(How::First)
    } else if number == 1 {
        Some(How::Second)
    } else if number == 2 {
        Some(How::Sum)
    } else if number == 3 {
        Some(How::Max)
    } else {
        None
    }
}
