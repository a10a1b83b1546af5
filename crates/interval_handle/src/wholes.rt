//! Sets of many intervals, and of others.
ghost use Rattle.std.specs.Prelude.{◌≡◌, [], IfOk, IsTrue, None, Some, length};
ghost use Rattle.interval_map.specs.Intervals.{with_intervals};
ghost use Rattle.interval_handle.specs.Ends.{are_ordered, paired};
ghost use Rattle.loose.specs.Statuses.{Becomes, into};

use crate::arrays::{in_order, pairs};
use crate::handle::{Handle, is_open, keep, open, take};
use crate::status::{BAD_CALL, NO_MEMORY};
use aug_monoid::{NoMemory, Share};
use interval_map::Intervals;
use std::alloc::Global;

/// Opens a closed handle with the set of another, in O(1).
pub fn share(alloc: Global, set: &mut Handle, out: &mut Handle) -> u8
    ensures made { Becomes (into out.old.intervals set.old.intervals) result out.old.intervals out.new.intervals }
    ensures same { set.new.intervals ≡ set.old.intervals }
{
    if is_open(out) {
        return BAD_CALL;
    }
    let Some(kept) = take(alloc, set) else {
        return BAD_CALL;
    };
    let made = kept.set.share(alloc);
    keep(set, kept);
    match made {
        Ok(made) => open(alloc, out, made),
        Err(_) => NO_MEMORY,
    }
}

/// Opens a closed handle with the set of the intervals of two arrays, in O(n * log n) for n intervals. It is a bad call where the
/// arrays differ in length, or a left end is greater than its right end.
pub fn build(alloc: Global, set: &mut Handle, lefts: &[u64], rights: &[u64]) -> u8
    ensures fit { length lefts.now ≡ length rights.now → IsTrue (are_ordered (paired lefts.now rights.now)) → Becomes (into set.old.intervals (Some (with_intervals [] (paired lefts.now rights.now)))) result set.old.intervals set.new.intervals }
    ensures unfit { ¬ (length lefts.now ≡ length rights.now) → Becomes None result set.old.intervals set.new.intervals }
    ensures unordered { ¬ IsTrue (are_ordered (paired lefts.now rights.now)) → Becomes None result set.old.intervals set.new.intervals }
{
    if lefts.len() != rights.len() {
        return BAD_CALL;
    }
    if !in_order(lefts, rights) {
        return BAD_CALL;
    }
    build_ordered(alloc, set, lefts, rights)
}

/// Opens a closed handle with the set of the intervals of two arrays, whose ends are in order.
fn build_ordered(alloc: Global, set: &mut Handle, lefts: &[u64], rights: &[u64]) -> u8
    requires { IsTrue (are_ordered (paired lefts.now rights.now)) }
    ensures { Becomes (into set.old.intervals (Some (with_intervals [] (paired lefts.now rights.now)))) result set.old.intervals set.new.intervals }
{
    if is_open(set) {
        return BAD_CALL;
    }
    match set_of(alloc, lefts, rights) {
        Ok(made) => open(alloc, set, made),
        Err(_) => NO_MEMORY,
    }
}

/// The set of the intervals of two arrays.
fn set_of(alloc: Global, lefts: &[u64], rights: &[u64]) -> Result<Intervals, NoMemory>
    requires { IsTrue (are_ordered (paired lefts.now rights.now)) }
    ensures { IfOk result (λ set. set ≡ with_intervals [] (paired lefts.now rights.now)) }
{
    let pairs = pairs(alloc, lefts, rights)?;
    Intervals::from_intervals(alloc, &pairs)
}
