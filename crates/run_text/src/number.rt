//! Lawful numbers.
ghost use Rattle.std.specs.Prelude.{◌≡◌, ◌≢◌, ℕ, decimal};
ghost use Rattle.std.specs.Option.{MatchOption};
ghost use Rattle.run_text.specs.Forms.{IsNumber};

use itoa::Buffer;
use std::str;

/// The number that the text parses as, which may be spelled in another way.
fn parsed(text: &[u8]) -> Option<u64>
    ensures { MatchOption result ((n : ℕ) → IsNumber n → text.now ≢ decimal n) (λ v. (n : ℕ) → IsNumber n → text.now ≡ decimal n → v ≡ n) }
{
    let Ok(digits) = str::from_utf8(text) else {
        return None;
    };
    match digits.parse::<u64>() {
        Ok(number) => Some(number),
        Err(_) => None,
    }
}

/// The number that the text spells: in decimal digits without a leading zero, below 2^64.
pub(crate) fn number(text: &[u8]) -> Option<u64>
    ensures { MatchOption result ((n : ℕ) → IsNumber n → text.now ≢ decimal n) (λ n. text.now ≡ decimal n) }
{
    let number = parsed(text)?;
    let mut buffer = Buffer::new();
    if buffer.format(number).as_bytes() == text {
        Some(number)
    } else {
        None
    }
}
