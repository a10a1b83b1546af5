//! The form of a whole text.
ghost use Rattle.std.specs.Prelude.{ℕ, List, IfOk, length};
ghost use Rattle.std.specs.Option.{MatchOption};
ghost use Rattle.run_text.specs.Forms.{HasForm, Tells};

use crate::batches::{batches, is_last};
use crate::replies::{Reply, replies};
use aug_monoid::NoMemory;
use std::alloc::Global;

/// What a text tells: of each read its line, the batches' numbers in order, and the last line with its line feed.
#[derive(Drop)]
pub struct Told<'a> {
    pub replies: Vec<Reply<'a>>,
    pub order: Vec<u64>,
    pub last: &'a [u8],
}

/// What the text tells of the reads of records with these places and of batches, in time linear in the text; none where it has not the form of
/// a run. It lends the answers and the last line.
pub fn parts_told<'a>(
    alloc: Global,
    places: &[u64],
    text: &'a [u8],
) -> Result<Option<Told<'a>>, NoMemory>
    ensures { IfOk result (λ o. MatchOption o ((numbers order : List ℕ) → ¬ (HasForm places.now numbers order text.entry.now)) (λ told. Tells places.now told.replies.items told.order.items told.last.now text.entry.now)) }
{
    let Some(found) = replies(alloc, places, text)? else {
        return Ok(None);
    };
    let ordered = batches(alloc, found.rest)?;
    if is_last(ordered.rest) {
        Ok(Some(Told {
            replies: found.told,
            order: ordered.numbers,
            last: ordered.rest,
        }))
    } else {
        Ok(None)
    }
}
