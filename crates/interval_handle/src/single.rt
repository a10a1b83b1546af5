//! Single intervals.
ghost use Rattle.std.specs.Prelude.{◌≡◌, ◌<◌, ◌≤◌, Contains, None, Some};
ghost use Rattle.std.specs.Option.{option_map};
ghost use Rattle.interval_map.specs.Intervals.{interval, with_interval, without_interval};
ghost use Rattle.loose.specs.Changes.{ChangesThere};
ghost use Rattle.loose.specs.Statuses.{Becomes};

use crate::handle::{Handle, keep, take};
use crate::status::{BAD_CALL, NO_MEMORY, NOT_THERE, OK};
use interval_map::Intervals;
use std::alloc::Global;

/// Adds an interval, in O(log n) for n intervals. It is a bad call where `left` is greater than `right`.
pub fn add(alloc: Global, set: &mut Handle, left: u64, right: u64) -> u8
    ensures ordered { left ≤ right → Becomes (option_map (λ is. with_interval is (interval left right)) set.old.intervals) result set.old.intervals set.new.intervals }
    ensures unordered { right < left → Becomes None result set.old.intervals set.new.intervals }
{
    if left > right {
        return BAD_CALL;
    }
    add_ordered(alloc, set, left, right)
}

/// Adds an interval whose ends are in order.
fn add_ordered(alloc: Global, set: &mut Handle, left: u64, right: u64) -> u8
    requires { left ≤ right }
    ensures { Becomes (option_map (λ is. with_interval is (interval left right)) set.old.intervals) result set.old.intervals set.new.intervals }
{
    let Some(mut kept) = take(alloc, set) else {
        return BAD_CALL;
    };
    let status = match kept.set.add_mut(alloc, left, right) {
        Ok(()) => OK,
        Err(_) => NO_MEMORY,
    };
    keep(set, kept);
    status
}

/// Removes an interval, in O(log n) for n intervals.
pub fn del(alloc: Global, set: &mut Handle, left: u64, right: u64) -> u8
    ensures { ChangesThere (λ is. Contains is (interval left right)) (λ is. without_interval is (interval left right)) result set.old.intervals set.new.intervals }
{
    let Some(mut kept) = take(alloc, set) else {
        return BAD_CALL;
    };
    let status = del_from(alloc, &mut kept.set, left, right);
    keep(set, kept);
    status
}

/// Removes an interval from a set that need not have it.
fn del_from(alloc: Global, set: &mut Intervals, left: u64, right: u64) -> u8
    ensures { ChangesThere (λ is. Contains is (interval left right)) (λ is. without_interval is (interval left right)) result (Some set.old) (Some set.new) }
{
    if !set.contains(alloc, left, right) {
        return NOT_THERE;
    }
    match set.del_mut(alloc, left, right) {
        Ok(()) => OK,
        Err(_) => NO_MEMORY,
    }
}
