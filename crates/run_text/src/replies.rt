//! The lines of the reads.
ghost use Rattle.std.specs.Prelude.{◌≡◌, ℕ, List, IfOk};
ghost use Rattle.std.specs.Option.{MatchOption};
ghost use Rattle.run_text.specs.Forms.{IsNumber};
ghost use Rattle.run_text.specs.Parts.{TellsOne, TellsReads, TellsThis, TellsThese};

use crate::head::behind_head;
use crate::lines::split_at_byte;
use crate::number::number;
use aug_monoid::NoMemory;
use std::alloc::Global;
use std::marker::Model;

/// What the line of a read tells: the number of its record, the number of a version, and an answer.
#[derive(Drop)]
pub struct Reply<'a> {
    pub place: u64,
    pub number: u64,
    pub answer: &'a [u8],
}

impl<'a> Model for Reply<'a> {
    ghost use Rattle.run_text.specs.Forms.{Told};

    ghost Value = { Told };

    ghost view = { λ r. record { place = r.place; number = r.number; answer = r.answer.now } };
}

/// What lines tell of reads, and the text behind these lines.
#[derive(Drop)]
pub(crate) struct ReadsTold<'a> {
    pub(crate) told: Vec<Reply<'a>>,
    pub(crate) rest: &'a [u8],
}

/// What the first line tells of the read of a record, and the text behind the line.
fn next_reply(text: &[u8], place: u64) -> Option<(Reply<'_>, &[u8])>
    ensures { MatchOption result ((n : ℕ) (rest : List ℕ) → IsNumber n → ¬ (TellsOne place n text.now rest)) (λ found. (found.0.place ≡ place) × TellsThis found.0 text.now found.1.now) }
{
    let Some((line, rest)) = split_at_byte(text, b'\n') else {
        return None;
    };
    let Some(behind) = behind_head(line, b'r', place) else {
        return None;
    };
    let Some((digits, answer)) = split_at_byte(behind, b',') else {
        return None;
    };
    let Some(number) = number(digits) else {
        return None;
    };
    let reply = Reply {
        place,
        number,
        answer,
    };
    Some((reply, rest))
}

/// What the first lines tell of the reads of these records, in linear time; none where these are not such lines.
pub(crate) fn replies<'a>(
    alloc: Global,
    places: &[u64],
    text: &'a [u8],
) -> Result<Option<ReadsTold<'a>>, NoMemory>
    ensures { IfOk result (λ o. MatchOption o ((numbers rest : List ℕ) → ¬ (TellsReads places.now numbers text.entry.now rest)) (λ found. TellsThese places.now found.told.items text.entry.now found.rest.now)) }
{
    let mut told = Vec::with_capacity(alloc, places.len())?;
    let mut rest = text;
    for place in places {
        let Some((reply, behind)) = next_reply(rest, *place) else {
            return Ok(None);
        };
        told.push(reply)?;
        rest = behind;
    }
    Ok(Some(ReadsTold { told, rest }))
}
