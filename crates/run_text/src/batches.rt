//! The lines of the batches, and the last line.
ghost use Rattle.std.specs.Prelude.{◌≡◌, ◌≢◌, ◌+◌, ◌++◌, ◌↔◌, ℕ, List, IfOk, IsTrue, All, length};
ghost use Rattle.std.specs.Option.{MatchOption};
ghost use Rattle.serve_text.specs.Texts.{last_text, order_line};
ghost use Rattle.serve_text.specs.Determined.{HasNoLineFeed};
ghost use Rattle.run_text.specs.Forms.{IsNumber, numbers_text};

use crate::head::behind_head;
use crate::lines::split_at_byte;
use crate::number::number;
use aug_monoid::NoMemory;
use std::alloc::Global;

/// The numbers that lines name, and the text behind these lines.
#[derive(Drop)]
pub(crate) struct Found<'a> {
    pub(crate) numbers: Vec<u64>,
    pub(crate) rest: &'a [u8],
}

/// The number that the first line names at a place of the order, and the text behind the line.
fn next_batch(text: &[u8], place: u64) -> Option<(u64, &[u8])>
    ensures { MatchOption result ((n : ℕ) (rest : List ℕ) → IsNumber n → text.now ≢ order_line place n ++ rest) (λ found. IsNumber found.0 × (text.now ≡ order_line place found.0 ++ found.1.now)) }
{
    let Some((line, rest)) = split_at_byte(text, b'\n') else {
        return None;
    };
    let Some(digits) = behind_head(line, b'j', place) else {
        return None;
    };
    match number(digits) {
        Some(number) => Some((number, rest)),
        None => None,
    }
}

/// The numbers that the first lines name for the places from 1 on, as many lines as do so, in linear time.
pub(crate) fn batches<'a>(alloc: Global, text: &'a [u8]) -> Result<Found<'a>, NoMemory>
    ensures found { IfOk result (λ found. text.entry.now ≡ numbers_text 1 found.numbers.items ++ found.rest.now) }
    ensures fit { IfOk result (λ found. All IsNumber found.numbers.items) }
    ensures all { IfOk result (λ found. (n : ℕ) (rest : List ℕ) → IsNumber n → found.rest.now ≢ order_line (1 + length found.numbers.items) n ++ rest) }
{
    let mut numbers = Vec::new(alloc);
    let mut rest = text;
    while let Some((number, behind)) = next_batch(rest, numbers.len() as u64 + 1) {
        numbers.push(number)?;
        rest = behind;
    }
    Ok(Found { numbers, rest })
}

/// Whether the text is one last line.
pub(crate) fn is_last(text: &[u8]) -> bool
    ensures { IsTrue result ↔ ((totals : List ℕ) × HasNoLineFeed totals × (text.now ≡ last_text totals)) }
{
    match split_at_byte(text, b'\n') {
        Some((line, rest)) => rest.is_empty() && line.strip_prefix(b"final,").is_some(),
        None => false,
    }
}
