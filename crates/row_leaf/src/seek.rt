//! The place of a key.
ghost use Rattle.std.specs.Prelude.{◌≡◌, ℕ, ◌+◌, ◌<◌, ◌≤◌, ◌↔◌, length, map, slice_get, Some, IsTrue, IsSome};
ghost use Rattle.aug_monoid.specs.Exact.{pair64_cmp};
ghost use Rattle.gap_code.specs.Code.{IsPlaceOf};
ghost use Rattle.map_model.specs.Entries.{IsIncreasing, below, lookup};
ghost use Rattle.row_leaf.specs.Code.{cell, cell_bytes, place_entry};

use crate::cell::{Cell, column_at};
use aug_monoid::{Key, Pair64, Seek, Steps, Walk};
use gap_code::Gaps;
use std::cmp::Ordering;
use std::sync::ledger::Ledger;

/// A key, and the place after its entry.
#[derive(Clone, Copy, Debug)]
struct Passed {
    key: Pair64,
    next: Walk,
}

/// The place behind the entry at a place. Of the entry it reads the key, and passes over the weight.
#[inline(always)]
fn pass(gaps: &Gaps<Cell>, place: &Walk) -> Passed
    requires place { IsPlaceOf cell_bytes gaps.now place.now }
    requires inside { place.now.index < length gaps.now }
    ensures entry { (weight : ℕ) × (slice_get gaps.now place.now.index ≡ Some (result.key.first, cell result.key.second weight)) }
    ensures place { IsPlaceOf cell_bytes gaps.now result.next }
    ensures index { result.next.index ≡ place.now.index + 1 }
{
    let (row, at) = gaps.entry_start(place);
    let (column, after) = column_at(gaps.code(), at);
    let next = Walk {
        index: place.index + 1,
        byte: after as u64,
        key: row,
    };
    let key = Pair64 {
        first: row,
        second: column,
    };
    Passed { key, next }
}

/// Where a key stands, by a step for each entry before it and one more.
pub(crate) fn seek_key<C: Ledger>(gaps: &Gaps<Cell>, key: &Pair64, steps: &mut Steps<C>) -> Seek
    requires { IsIncreasing pair64_cmp (map place_entry gaps.now) }
    ensures at { result.at ≡ length (below pair64_cmp (map place_entry gaps.now) key.now) }
    ensures hit { IsTrue result.hit ↔ IsSome (lookup pair64_cmp (map place_entry gaps.now) key.now) }
    ensures within { steps.new ≤ steps.old + length (map place_entry gaps.now) }
{
    let mut place = gaps.first_place();
    while place.index < gaps.len() {
        let passed = pass(gaps, &place);
        match passed.key.order(key, steps) {
            Ordering::Less => place = passed.next,
            Ordering::Equal => {
                return Seek {
                    at: place.index,
                    hit: true,
                };
            }
            Ordering::Greater => {
                return Seek {
                    at: place.index,
                    hit: false,
                };
            }
        }
    }
    Seek {
        at: place.index,
        hit: false,
    }
}
