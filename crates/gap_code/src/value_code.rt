//! Values as bytes.
ghost use Rattle.std.specs.Prelude.{◌≡◌, ℕ, ◌+◌, ◌<◌, ◌^◌, List, [], ◌++◌, length, take, drop, OnOk, refl};
ghost use Rattle.gap_code.specs.Leb.{leb, number_of, BeginsWith};
ghost use Rattle.gap_code.specs.LebLaws.{number_of-leb};

use crate::number::{number_at, number_end, push_number};
use aug_monoid::{NoMemory, Share};

/// A value that is stored as bytes, and read back from them whatever bytes follow.
pub trait ValueCode: Share {
    /// The values that have bytes.
    ghost fits_bytes: { Self → Type 0 };

    ghost bytes_of: { Self → List ℕ };

    /// The value whose bytes stand at the start.
    ghost value_of: { List ℕ → Self };

    /// So many bytes are set aside for a value that is to be coded: 0 where it has none. The number decides of the time alone.
    const ROOM: usize;

    /// Appends the bytes of the value. A refusal leaves some of them behind what stood there before.
    fn code_to(&self, out: &mut Vec<u8>) -> Result<(), NoMemory>
        ensures appends { OnOk result (out.new.items ≡ out.old.items ++ bytes_of self.now) }
        ensures fits { OnOk result (fits_bytes self.now) }
        ensures kept { take (length out.old.items) out.new.items ≡ out.old.items };

    /// The value whose bytes stand at a place, and the place after it.
    fn code_at(from: &[u8], at: usize) -> (Self, usize)
    where
        Self: Sized,
        requires { BeginsWith fits_bytes bytes_of (drop at from.now) }
        ensures value { result.0 ≡ value_of (drop at from.now) }
        ensures after { result.1 ≡ at + length (bytes_of (value_of (drop at from.now))) };

    /// The place after the value whose bytes stand at a place.
    fn code_end(from: &[u8], at: usize) -> usize
    where
        Self: Sized,
        requires { BeginsWith fits_bytes bytes_of (drop at from.now) }
        ensures { result ≡ at + length (bytes_of (value_of (drop at from.now))) };

    ghost read_back: { (v : Self) (others : List ℕ) → fits_bytes v → value_of (bytes_of v ++ others) ≡ v };
}

impl ValueCode for u64 {
    const ROOM: usize = 10;

    ghost fits_bytes = { λ n. n < 2 ^ 64 };

    ghost bytes_of = { leb };

    ghost value_of = { number_of };

    ghost read_back = { λ n others fits. number_of-leb n others };

    fn code_to(&self, out: &mut Vec<u8>) -> Result<(), NoMemory> {
        let number = *self;
        push_number(out, number)
    }

    fn code_at(from: &[u8], at: usize) -> (u64, usize) {
        number_at(from, at)
    }

    fn code_end(from: &[u8], at: usize) -> usize {
        number_end(from, at)
    }
}

impl ValueCode for () {
    const ROOM: usize = 0;

    ghost fits_bytes = { λ _. Unit {0} };

    ghost bytes_of = { λ _. [] };

    ghost value_of = { λ _. tt };

    ghost read_back = { λ _ _ _. refl };

    fn code_to(&self, _out: &mut Vec<u8>) -> Result<(), NoMemory> {
        Ok(())
    }

    fn code_at(_from: &[u8], at: usize) -> ((), usize) {
        ((), at)
    }

    fn code_end(_from: &[u8], at: usize) -> usize {
        at
    }
}
