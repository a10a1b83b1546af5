//! Intervals listed into arrays of the caller.
ghost use Rattle.std.specs.Prelude.{◌≡◌, ◌<◌, ◌≤◌, None, length, take as taken};
ghost use Rattle.std.specs.Option.{option_map};
ghost use Rattle.interval_map.specs.Intervals.{interval, intervals_from, overlap, stab};
ghost use Rattle.interval_handle.specs.Lists.{Lists, listing};

use crate::arrays::write_found;
use crate::handle::{Handle, keep, take};
use crate::status::{BAD_CALL, NO_MEMORY};
use std::alloc::Global;

/// Lists the intervals that have a point, in order, in O(log n + k log n) for k of n intervals. `count` becomes their number, also where
/// the arrays have no room for them. It is a bad call where the arrays differ in length.
pub fn stab(
    alloc: Global,
    set: &mut Handle,
    point: u64,
    lefts: &mut [u64],
    rights: &mut [u64],
    count: &mut usize,
) -> u8
    ensures fit { length lefts.old ≡ length rights.old → Lists (option_map (λ is. stab is point) set.old.intervals) result (listing lefts.old rights.old count.old) (listing lefts.new rights.new count.new) }
    ensures unfit { ¬ (length lefts.old ≡ length rights.old) → Lists None result (listing lefts.old rights.old count.old) (listing lefts.new rights.new count.new) }
    ensures same { set.new.intervals ≡ set.old.intervals }
{
    if lefts.len() != rights.len() {
        return BAD_CALL;
    }
    list_at(alloc, set, point, lefts, rights, count)
}

/// Lists the intervals that have a point into arrays of one length.
fn list_at(
    alloc: Global,
    set: &mut Handle,
    point: u64,
    lefts: &mut [u64],
    rights: &mut [u64],
    count: &mut usize,
) -> u8
    requires { length lefts.old ≡ length rights.old }
    ensures answer { Lists (option_map (λ is. stab is point) set.old.intervals) result (listing lefts.old rights.old count.old) (listing lefts.new rights.new count.new) }
    ensures same { set.new.intervals ≡ set.old.intervals }
{
    let Some(kept) = take(alloc, set) else {
        return BAD_CALL;
    };
    let found = kept.set.stab(alloc, point);
    keep(set, kept);
    match found {
        Ok(found) => write_found(&found, lefts, rights, count),
        Err(_) => NO_MEMORY,
    }
}

/// Lists the intervals that have a number from `lo` to `hi`, as `stab`. It is a bad call too where `lo` is greater than `hi`.
pub fn overlapping(
    alloc: Global,
    set: &mut Handle,
    lo: u64,
    hi: u64,
    lefts: &mut [u64],
    rights: &mut [u64],
    count: &mut usize,
) -> u8
    ensures fit { lo ≤ hi → length lefts.old ≡ length rights.old → Lists (option_map (λ is. overlap is lo hi) set.old.intervals) result (listing lefts.old rights.old count.old) (listing lefts.new rights.new count.new) }
    ensures unfit { ¬ (length lefts.old ≡ length rights.old) → Lists None result (listing lefts.old rights.old count.old) (listing lefts.new rights.new count.new) }
    ensures unordered { hi < lo → Lists None result (listing lefts.old rights.old count.old) (listing lefts.new rights.new count.new) }
    ensures same { set.new.intervals ≡ set.old.intervals }
{
    if lo > hi {
        return BAD_CALL;
    }
    if lefts.len() != rights.len() {
        return BAD_CALL;
    }
    list_between(alloc, set, lo, hi, lefts, rights, count)
}

/// Lists the intervals that have a number from `lo` to `hi` into arrays of one length.
fn list_between(
    alloc: Global,
    set: &mut Handle,
    lo: u64,
    hi: u64,
    lefts: &mut [u64],
    rights: &mut [u64],
    count: &mut usize,
) -> u8
    requires { length lefts.old ≡ length rights.old }
    ensures answer { Lists (option_map (λ is. overlap is lo hi) set.old.intervals) result (listing lefts.old rights.old count.old) (listing lefts.new rights.new count.new) }
    ensures same { set.new.intervals ≡ set.old.intervals }
{
    let Some(kept) = take(alloc, set) else {
        return BAD_CALL;
    };
    let found = kept.set.overlap(alloc, lo, hi);
    keep(set, kept);
    match found {
        Ok(found) => write_found(&found, lefts, rights, count),
        Err(_) => NO_MEMORY,
    }
}

/// Lists the first intervals from the one from `from_left` to `from_right` on, which need not be there, as many as the arrays have room for:
/// those that begin after `from_left`, and those that begin there and end at least at `from_right`. `count` becomes their number.
/// O(log n + k) for k of n intervals. It is a bad call where the arrays differ in length.
pub fn fill(
    alloc: Global,
    set: &mut Handle,
    from_left: u64,
    from_right: u64,
    lefts: &mut [u64],
    rights: &mut [u64],
    count: &mut usize,
) -> u8
    ensures fit { length lefts.old ≡ length rights.old → Lists (option_map (λ is. taken (length lefts.old) (intervals_from is (interval from_left from_right))) set.old.intervals) result (listing lefts.old rights.old count.old) (listing lefts.new rights.new count.new) }
    ensures unfit { ¬ (length lefts.old ≡ length rights.old) → Lists None result (listing lefts.old rights.old count.old) (listing lefts.new rights.new count.new) }
    ensures same { set.new.intervals ≡ set.old.intervals }
{
    if lefts.len() != rights.len() {
        return BAD_CALL;
    }
    list_from(alloc, set, from_left, from_right, lefts, rights, count)
}

/// Lists the first intervals from a pair of ends on into arrays of one length.
fn list_from(
    alloc: Global,
    set: &mut Handle,
    from_left: u64,
    from_right: u64,
    lefts: &mut [u64],
    rights: &mut [u64],
    count: &mut usize,
) -> u8
    requires { length lefts.old ≡ length rights.old }
    ensures answer { Lists (option_map (λ is. taken (length lefts.old) (intervals_from is (interval from_left from_right))) set.old.intervals) result (listing lefts.old rights.old count.old) (listing lefts.new rights.new count.new) }
    ensures same { set.new.intervals ≡ set.old.intervals }
{
    let Some(kept) = take(alloc, set) else {
        return BAD_CALL;
    };
    let found = kept
        .set
        .first_from(alloc, from_left, from_right, lefts.len());
    keep(set, kept);
    match found {
        Ok(found) => write_found(&found, lefts, rights, count),
        Err(_) => NO_MEMORY,
    }
}
