//! Lawful numbers.
ghost use Rattle.std.specs.Prelude.{◌≡◌};
ghost use Rattle.script.specs.Numbers.{digits_after, fitting, number_of};

// The number of some digits, where these are digits and it fits.
fn digits(text: &[u8]) -> Option<u64>
    ensures { result ≡ fitting (digits_after 0 text.now) }
{
    let mut value: u64 = 0;
    for digit in text {
        if !digit.is_ascii_digit() {
            return None;
        }
        value = value
            .checked_mul(10)?
            .checked_add(u64::from(*digit - b'0'))?;
    }
    Some(value)
}

/// The number that a text spells: decimal digits without a sign or a leading zero, at most
/// `u64::MAX`.
pub fn number(text: &[u8]) -> Option<u64>
    ensures { result ≡ number_of text.now }
{
    match text {
        [] => None,
        [_] => digits(text),
        [b'0', ..] => None,
        _ => digits(text),
    }
}
