//! What sets of intervals tell.
ghost use Rattle.std.specs.Prelude.{◌≡◌, ◌⊎◌, [], MatchOption, Some, length};
ghost use Rattle.std.specs.Option.{option_map};
ghost use Rattle.interval_map.specs.Intervals.{stab};
ghost use Rattle.loose.specs.Statuses.{Answers};

use crate::handle::{Handle, keep, take};
use crate::status::{BAD_CALL, NOT_THERE, OK};
use interval_map::Intervals;
use std::alloc::Global;

/// How many intervals there are, in O(1).
pub fn len(alloc: Global, set: &mut Handle, len: &mut u64) -> u8
    ensures answer { Answers (option_map (λ is. Some (length is)) set.old.intervals) result len.old len.new }
    ensures same { set.new.intervals ≡ set.old.intervals }
{
    let Some(kept) = take(alloc, set) else {
        return BAD_CALL;
    };
    *len = kept.set.size();
    keep(set, kept);
    OK
}

/// Whether an interval has a point, in O(log n) for n intervals.
pub fn any(alloc: Global, set: &mut Handle, point: u64) -> u8
    ensures answer { MatchOption set.old.intervals (result ≡ 4) (λ is. ((result ≡ 0) × ¬ (stab is point ≡ [])) ⊎ ((result ≡ 1) × (stab is point ≡ []))) }
    ensures same { set.new.intervals ≡ set.old.intervals }
{
    let Some(kept) = take(alloc, set) else {
        return BAD_CALL;
    };
    let status = any_in(alloc, &kept.set, point);
    keep(set, kept);
    status
}

/// Whether an interval of a set has a point.
fn any_in(alloc: Global, set: &Intervals, point: u64) -> u8
    ensures { ((result ≡ 0) × ¬ (stab set.now point ≡ [])) ⊎ ((result ≡ 1) × (stab set.now point ≡ [])) }
{
    if set.any(alloc, point) {
        return OK;
    }
    NOT_THERE
}
