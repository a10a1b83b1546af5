//! Keys that stand for numbers of up to 64 bits.
ghost use Rattle.std.specs.Prelude.{◌≡◌, ℕ, ◌<◌, ◌^◌, refl};
ghost use Rattle.std.specs.Ordering.{nat_cmp};
ghost use Rattle.diff_leaf.specs.Numbers.{signed_key, signed_number};
ghost use Rattle.diff_leaf.specs.NumberLaws.{signed_ordered, signed_read_back};

use aug_monoid::Key;

/// A key that stands for a number of up to 64 bits: keys are in the order of their numbers. An unsigned key is its own number,
/// and that of a signed key is the key less the least of its type.
pub trait NumberKey: Key {
    /// The numbers that have a key.
    ghost fits_number: { ℕ → Type 0 };

    ghost number_of: { Self → ℕ };

    ghost key_of: { ℕ → Self };

    /// The key's number.
    fn number(&self) -> u64
        ensures key { key_of result ≡ self.now }
        ensures fits { fits_number result };

    /// The key of a number.
    fn of_number(number: u64) -> Self
    where
        Self: Sized,
        requires { fits_number number }
        ensures { result ≡ key_of number };

    ghost ordered: { (a b : ℕ) → Self.cmp (key_of a) (key_of b) ≡ nat_cmp a b };

    ghost read_back: { (n : ℕ) → number_of (key_of n) ≡ n };
}

impl NumberKey for u64 {
    ghost fits_number = { λ _. Unit {0} };

    ghost number_of = { λ k. k };

    ghost key_of = { λ n. n };

    ghost ordered = { λ _ _. refl };

    ghost read_back = { λ _. refl };

    #[inline(always)]
    fn number(&self) -> u64 {
        *self
    }

    #[inline(always)]
    fn of_number(number: u64) -> u64 {
        number
    }
}

impl NumberKey for usize {
    ghost fits_number = { λ _. Unit {0} };

    ghost number_of = { λ k. k };

    ghost key_of = { λ n. n };

    ghost ordered = { λ _ _. refl };

    ghost read_back = { λ _. refl };

    #[inline(always)]
    fn number(&self) -> u64 {
        *self as u64
    }

    #[inline(always)]
    fn of_number(number: u64) -> usize {
        number as usize
    }
}

impl NumberKey for u32 {
    ghost fits_number = { λ n. n < 2 ^ 32 };

    ghost number_of = { λ k. k };

    ghost key_of = { λ n. n };

    ghost ordered = { λ _ _. refl };

    ghost read_back = { λ _. refl };

    #[inline(always)]
    fn number(&self) -> u64 {
        *self as u64
    }

    #[inline(always)]
    fn of_number(number: u64) -> u32 {
        number as u32
    }
}

impl NumberKey for u16 {
    ghost fits_number = { λ n. n < 2 ^ 16 };

    ghost number_of = { λ k. k };

    ghost key_of = { λ n. n };

    ghost ordered = { λ _ _. refl };

    ghost read_back = { λ _. refl };

    #[inline(always)]
    fn number(&self) -> u64 {
        *self as u64
    }

    #[inline(always)]
    fn of_number(number: u64) -> u16 {
        number as u16
    }
}

impl NumberKey for u8 {
    ghost fits_number = { λ n. n < 2 ^ 8 };

    ghost number_of = { λ k. k };

    ghost key_of = { λ n. n };

    ghost ordered = { λ _ _. refl };

    ghost read_back = { λ _. refl };

    #[inline(always)]
    fn number(&self) -> u64 {
        *self as u64
    }

    #[inline(always)]
    fn of_number(number: u64) -> u8 {
        number as u8
    }
}

impl NumberKey for i64 {
    ghost fits_number = { λ _. Unit {0} };

    ghost number_of = { signed_number (2 ^ 63) };

    ghost key_of = { signed_key (2 ^ 63) };

    ghost ordered = { signed_ordered (2 ^ 63) };

    ghost read_back = { signed_read_back (2 ^ 63) };

    #[inline(always)]
    fn number(&self) -> u64 {
        (*self as i128 - i64::MIN as i128) as u64
    }

    #[inline(always)]
    fn of_number(number: u64) -> i64 {
        (number as i128 + i64::MIN as i128) as i64
    }
}

impl NumberKey for isize {
    ghost fits_number = { λ _. Unit {0} };

    ghost number_of = { signed_number (2 ^ 63) };

    ghost key_of = { signed_key (2 ^ 63) };

    ghost ordered = { signed_ordered (2 ^ 63) };

    ghost read_back = { signed_read_back (2 ^ 63) };

    #[inline(always)]
    fn number(&self) -> u64 {
        (*self as i128 - isize::MIN as i128) as u64
    }

    #[inline(always)]
    fn of_number(number: u64) -> isize {
        (number as i128 + isize::MIN as i128) as isize
    }
}

impl NumberKey for i32 {
    ghost fits_number = { λ n. n < 2 ^ 32 };

    ghost number_of = { signed_number (2 ^ 31) };

    ghost key_of = { signed_key (2 ^ 31) };

    ghost ordered = { signed_ordered (2 ^ 31) };

    ghost read_back = { signed_read_back (2 ^ 31) };

    #[inline(always)]
    fn number(&self) -> u64 {
        (*self as i64 - i32::MIN as i64) as u64
    }

    #[inline(always)]
    fn of_number(number: u64) -> i32 {
        (number as i64 + i32::MIN as i64) as i32
    }
}

impl NumberKey for i16 {
    ghost fits_number = { λ n. n < 2 ^ 16 };

    ghost number_of = { signed_number (2 ^ 15) };

    ghost key_of = { signed_key (2 ^ 15) };

    ghost ordered = { signed_ordered (2 ^ 15) };

    ghost read_back = { signed_read_back (2 ^ 15) };

    #[inline(always)]
    fn number(&self) -> u64 {
        (*self as i64 - i16::MIN as i64) as u64
    }

    #[inline(always)]
    fn of_number(number: u64) -> i16 {
        (number as i64 + i16::MIN as i64) as i16
    }
}

impl NumberKey for i8 {
    ghost fits_number = { λ n. n < 2 ^ 8 };

    ghost number_of = { signed_number (2 ^ 7) };

    ghost key_of = { signed_key (2 ^ 7) };

    ghost ordered = { signed_ordered (2 ^ 7) };

    ghost read_back = { signed_read_back (2 ^ 7) };

    #[inline(always)]
    fn number(&self) -> u64 {
        (*self as i64 - i8::MIN as i64) as u64
    }

    #[inline(always)]
    fn of_number(number: u64) -> i8 {
        (number as i64 + i8::MIN as i64) as i8
    }
}
