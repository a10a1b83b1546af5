//! Numbers that are read from bytes which may have none.
ghost use Rattle.std.specs.Prelude.{ℕ, ◌^◌, ◌<◌, ◌≤◌, length, drop, slice_index, MatchResult};
ghost use Rattle.gap_code.specs.Leb.{leb, BeginsWith};
ghost use Rattle.entry_bytes.specs.Faults.{IsNumberFault};
ghost use Rattle.entry_bytes.specs.Reads.{IsRead};

use crate::fault::DecodeFault;
use gap_code::number_at;

/// More bytes with the top bit come before no `u64`'s last.
const MOST: usize = 9;

/// How many bytes with the top bit come first; ten stand for as many or more.
#[inline(always)]
fn run_length(bytes: &[u8]) -> usize
    ensures within { result ≤ length bytes.now }
    ensures most { result ≤ 10 }
    ensures high { (k : ℕ) → k < result → 128 ≤ slice_index bytes.now k }
    ensures low { result < 10 → result < length bytes.now → slice_index bytes.now result < 128 }
{
    let mut run = 0;
    while run <= MOST && run < bytes.len() && bytes[run] >= 128 {
        run += 1;
    }
    run
}

/// Whether a number comes first.
#[inline(always)]
fn check_number(rest: &[u8]) -> Result<(), DecodeFault>
    ensures { MatchResult result (λ _. BeginsWith (λ n. n < 2 ^ 64) leb rest.now) (λ fault. IsNumberFault fault rest.now) }
{
    let run = run_length(rest);
    if run > MOST {
        return Err(DecodeFault::Number);
    }
    if run >= rest.len() {
        return Err(DecodeFault::Short);
    }
    let last = rest[run];
    if run == 0 {
        return Ok(()); // the one byte
    }
    if last == 0 {
        return Err(DecodeFault::Number);
    }
    if run < MOST {
        return Ok(());
    }
    if last > 1 {
        return Err(DecodeFault::Number);
    }
    Ok(())
}

/// A number, and the place after it.
#[derive(Clone, Copy)]
pub(crate) struct ReadNumber {
    pub(crate) number: u64,
    pub(crate) after: usize,
}

/// The number that stands at a place.
#[inline(always)]
pub(crate) fn read_number(bytes: &[u8], at: usize) -> Result<ReadNumber, DecodeFault>
    requires { at ≤ length bytes.now }
    ensures { MatchResult result (λ read. IsRead bytes.now at read.number read.after) (λ fault. IsNumberFault fault (drop at bytes.now)) }
{
    check_number(&bytes[at..])?;
    let (number, after) = number_at(bytes, at);
    Ok(ReadNumber { number, after })
}
