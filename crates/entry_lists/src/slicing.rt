//! Increasing entries in a slice, cut at a key.
ghost use Rattle.std.specs.Prelude.{◌≡◌, ◌+◌, ◌<◌, ◌≤◌, ◌^◌, ℕ, length};
ghost use Rattle.std.specs.Option.{option_map};
ghost use Rattle.map_model.specs.Entries.{IsIncreasing, above, below, lookup};
ghost use Rattle.map_model.specs.Parts.{rank};

use aug_monoid::{Key, Steps};
use std::sync::ledger::Ledger;

/// The entries below a key, the value at it, and the entries above it.
#[derive(Drop)]
pub struct SliceParts<'a, K, V> {
    pub below: &'a [(K, V)],
    pub found: Option<&'a V>,
    pub above: &'a [(K, V)],
}

/// How many entries are below a key, by a search in halves.
fn place_in<K: Key, V, C: Ledger>(entries: &[(K, V)], key: &K, steps: &mut Steps<C>) -> usize
    requires { IsIncreasing K.cmp entries.now }
    ensures place { result ≡ rank K.cmp entries.now key.now }
    ensures cost { (n : ℕ) → length entries.now < 2 ^ n → steps.new ≤ steps.old + n }
{
    let mut place = 0;
    let mut size = entries.len();
    while size > 0 {
        let half = size / 2;
        let middle = place + half;
        if entries[middle].0.order(key, steps).is_lt() {
            place = middle + 1;
            size -= half + 1;
        } else {
            size = half;
        }
    }
    place
}

/// How many entries are below a key, counted from the front.
fn count_below<K: Key, V, C: Ledger>(entries: &[(K, V)], key: &K, steps: &mut Steps<C>) -> usize
    requires { IsIncreasing K.cmp entries.now }
    ensures place { result ≡ rank K.cmp entries.now key.now }
    ensures cost { steps.new ≤ steps.old + (result + 1) }
{
    let mut count = 0;
    for entry in entries {
        if !entry.0.order(key, steps).is_lt() {
            return count;
        }
        count += 1;
    }
    count
}

/// The slice cut at a key, by a search in halves. Each comparison is a step: for fewer than 2^n entries at most n + 1.
pub fn cut_slice<'a, K: Key, V, C: Ledger>(
    entries: &'a [(K, V)],
    key: &K,
    steps: &mut Steps<C>,
) -> SliceParts<'a, K, V>
    requires { IsIncreasing K.cmp entries.now }
    ensures below { result.below.now ≡ below K.cmp entries.now key.now }
    ensures found { option_map (λ v. v.now) result.found ≡ lookup K.cmp entries.now key.now }
    ensures above { result.above.now ≡ above K.cmp entries.now key.now }
    ensures cost { (n : ℕ) → length entries.now < 2 ^ n → steps.new ≤ steps.old + (n + 1) }
{
    let place = place_in(entries, key, steps);
    cut_at(entries, key, place, steps)
}

/// The slice cut at a key, by a search from the front. Each comparison is a step: for k entries below the key at most k + 2.
pub fn cut_front<'a, K: Key, V, C: Ledger>(
    entries: &'a [(K, V)],
    key: &K,
    steps: &mut Steps<C>,
) -> SliceParts<'a, K, V>
    requires { IsIncreasing K.cmp entries.now }
    ensures below { result.below.now ≡ below K.cmp entries.now key.now }
    ensures found { option_map (λ v. v.now) result.found ≡ lookup K.cmp entries.now key.now }
    ensures above { result.above.now ≡ above K.cmp entries.now key.now }
    ensures cost { steps.new ≤ steps.old + (length result.below.now + 2) }
{
    let place = count_below(entries, key, steps);
    cut_at(entries, key, place, steps)
}

/// The slice cut at a key whose place is known.
fn cut_at<'a, K: Key, V, C: Ledger>(
    entries: &'a [(K, V)],
    key: &K,
    place: usize,
    steps: &mut Steps<C>,
) -> SliceParts<'a, K, V>
    requires increasing { IsIncreasing K.cmp entries.now }
    requires place { place ≡ rank K.cmp entries.now key.now }
    ensures below { result.below.now ≡ below K.cmp entries.now key.now }
    ensures found { option_map (λ v. v.now) result.found ≡ lookup K.cmp entries.now key.now }
    ensures above { result.above.now ≡ above K.cmp entries.now key.now }
    ensures cost { steps.new ≤ steps.old + 1 }
{
    let (below, rest) = entries.split_at(place);
    match rest.split_first() {
        Some(((other, val), above)) => {
            if other.order(key, steps).is_eq() {
                SliceParts {
                    below,
                    found: Some(val),
                    above,
                }
            } else {
                SliceParts {
                    below,
                    found: None,
                    above: rest,
                }
            }
        }
        None => SliceParts {
            below,
            found: None,
            above: rest,
        },
    }
}
