//! The place of a key.
ghost use Rattle.std.specs.Prelude.{◌≡◌, ◌+◌, ◌≤◌, ◌↔◌, length, IsTrue, IsSome};
ghost use Rattle.std.specs.Ordering.{nat_cmp};
ghost use Rattle.map_model.specs.Entries.{IsIncreasing, below, lookup};

use aug_monoid::{Key, Seek, Steps};
use gap_code::{Gaps, ValueCode};
use std::cmp::Ordering;
use std::sync::ledger::Ledger;

/// Where a key stands, by a step for each entry before it and one more.
pub(crate) fn seek_key<V: ValueCode, C: Ledger>(
    gaps: &Gaps<V>,
    key: u64,
    steps: &mut Steps<C>,
) -> Seek
    requires { IsIncreasing nat_cmp gaps.now }
    ensures at { result.at ≡ length (below nat_cmp gaps.now key) }
    ensures hit { IsTrue result.hit ↔ IsSome (lookup nat_cmp gaps.now key) }
    ensures within { steps.new ≤ steps.old + length gaps.now }
{
    let mut place = gaps.first_place();
    while place.index < gaps.len() {
        let next = gaps.pass(&place);
        match next.key.order(&key, steps) {
            Ordering::Less => place = next,
            Ordering::Equal => {
                return Seek {
                    at: place.index,
                    hit: true,
                };
            }
            Ordering::Greater => {
                return Seek {
                    at: place.index,
                    hit: false,
                };
            }
        }
    }
    Seek {
        at: place.index,
        hit: false,
    }
}
