//! Single items by their places, counted from 0, and items at the end.
ghost use Rattle.std.specs.Prelude.{◌≡◌, ◌<◌, ◌++◌, ◌∷◌, [], MatchResult, Some, length, slice_get, slice_set};
ghost use Rattle.std.specs.Option.{option_map};
ghost use Rattle.loose.specs.Changes.{ChangesThere};
ghost use Rattle.loose.specs.Statuses.{Answers, Becomes};

use crate::handle::{Handle, keep, take};
use crate::inner::Numbers;
use crate::status::{BAD_CALL, NO_MEMORY, NOT_THERE, OK};
use aug_monoid::NoMemory;
use std::alloc::Global;

/// The item at a place, in O(log n) for n items.
pub fn get(alloc: Global, seq: &mut Handle, place: u64, item: &mut u64) -> u8
    ensures answer { Answers (option_map (λ s. slice_get s place) seq.old.items) result item.old item.new }
    ensures same { seq.new.items ≡ seq.old.items }
{
    let Some(kept) = take(alloc, seq) else {
        return BAD_CALL;
    };
    let found = kept.seq.at(alloc, place);
    keep(seq, kept);
    match found {
        Some(answer) => {
            *item = answer;
            OK
        }
        None => NOT_THERE,
    }
}

/// Sets the item at a place, in O(log n + B) for n items in blocks of B.
pub fn set(alloc: Global, seq: &mut Handle, place: u64, item: u64) -> u8
    ensures { ChangesThere (λ s. place < length s) (λ s. slice_set s place item) result seq.old.items seq.new.items }
{
    let Some(mut kept) = take(alloc, seq) else {
        return BAD_CALL;
    };
    let status = set_in(alloc, &mut kept.seq, place, item);
    keep(seq, kept);
    status
}

/// Sets the item at a place of a sequence that may be shorter.
fn set_in(alloc: Global, seq: &mut Numbers, place: u64, item: u64) -> u8
    ensures { ChangesThere (λ s. place < length s) (λ s. slice_set s place item) result (Some seq.old.items) (Some seq.new.items) }
{
    if place >= seq.size() {
        return NOT_THERE;
    }
    let made = seq.set(alloc, place, item);
    replace(seq, made)
}

/// Puts a sequence that a call made in the place of another, if it did.
fn replace(seq: &mut Numbers, made: Result<Numbers, NoMemory>) -> u8
    ensures { MatchResult made (λ next. (result ≡ 0) × (seq.new ≡ next)) (λ _. (result ≡ 7) × (seq.new ≡ seq.old)) }
{
    match made {
        Ok(next) => {
            *seq = next;
            OK
        }
        Err(_) => NO_MEMORY,
    }
}

/// Appends one item, in O(log n + B) for n items in blocks of B.
pub fn push(alloc: Global, seq: &mut Handle, item: u64) -> u8
    ensures { Becomes (option_map (λ s. s ++ item ∷ []) seq.old.items) result seq.old.items seq.new.items }
{
    push_many(alloc, seq, &[item])
}

/// Appends the items of a list, in O(log n + B + k) for k items after n in blocks of B.
pub fn push_many(alloc: Global, seq: &mut Handle, items: &[u64]) -> u8
    ensures { Becomes (option_map (λ s. s ++ items.now) seq.old.items) result seq.old.items seq.new.items }
{
    let Some(mut kept) = take(alloc, seq) else {
        return BAD_CALL;
    };
    let made = kept.seq.push(alloc, items);
    let status = replace(&mut kept.seq, made);
    keep(seq, kept);
    status
}
