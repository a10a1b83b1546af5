//! Intervals as two arrays, of their left and of their right ends.
ghost use Rattle.std.specs.Prelude.{◌≡◌, ◌≤◌, IfOk, Some, length};
ghost use Rattle.interval_handle.specs.Ends.{are_ordered, lefts_of, paired, rights_of};
ghost use Rattle.interval_handle.specs.Lists.{Lists, listing};
ghost use Rattle.loose.specs.Arrays.{overwritten};

use crate::status::{NO_ROOM, OK};
use aug_monoid::Pair64;
use std::alloc::{AllocError, Global};

/// Writes the ends of intervals into two arrays that have room for them.
fn write_ends(intervals: &[Pair64], lefts: &mut [u64], rights: &mut [u64])
    requires left_room { length intervals.now ≤ length lefts.old }
    requires right_room { length intervals.now ≤ length rights.old }
    ensures lefts { lefts.new ≡ overwritten lefts.old (lefts_of intervals.now) }
    ensures rights { rights.new ≡ overwritten rights.old (rights_of intervals.now) }
{
    for (at, interval) in intervals.iter().enumerate() {
        lefts[at] = interval.first;
        rights[at] = interval.second;
    }
}

/// Writes the ends of the intervals that a call found into two arrays of one length, if they have room, and how many they are.
pub(crate) fn write_found(
    found: &[Pair64],
    lefts: &mut [u64],
    rights: &mut [u64],
    count: &mut usize,
) -> u8
    requires { length lefts.old ≡ length rights.old }
    ensures { Lists (Some found.now) result (listing lefts.old rights.old count.old) (listing lefts.new rights.new count.new) }
{
    *count = found.len();
    if found.len() > lefts.len() {
        return NO_ROOM;
    }
    write_ends(found, lefts, rights);
    OK
}

/// Whether no left end is greater than its right end.
pub(crate) fn in_order(lefts: &[u64], rights: &[u64]) -> bool
    ensures { result ≡ are_ordered (paired lefts.now rights.now) }
{
    lefts
        .iter()
        .zip(rights)
        .all(|(left, right)| *left <= *right)
}

/// The interval of each left end and the right end at its place.
pub(crate) fn pairs(alloc: Global, lefts: &[u64], rights: &[u64]) -> Result<Vec<Pair64>, AllocError>
    ensures { IfOk result (λ pairs. pairs.items ≡ paired lefts.now rights.now) }
{
    lefts
        .iter()
        .zip(rights)
        .map(|(left, right)| Pair64 {
            first: *left,
            second: *right,
        })
        .collect(alloc)
}
