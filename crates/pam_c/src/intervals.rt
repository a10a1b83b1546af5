//! Sets of intervals for C.
ghost use Rattle.std.specs.Prelude.{◌≡◌, ◌⊎◌, ◌<◌, ◌≤◌, [], Contains, IsTrue, MatchOption, None, Some, length, take};
ghost use Rattle.std.specs.Option.{option_map};
ghost use Rattle.interval_map.specs.Intervals.{interval, intervals_from, overlap, stab, with_interval, with_intervals, without_interval};
ghost use Rattle.interval_handle.specs.Ends.{are_ordered, paired};
ghost use Rattle.interval_handle.specs.Lists.{Lists, listing};
ghost use Rattle.loose.specs.Changes.{ChangesThere};
ghost use Rattle.loose.specs.Statuses.{Answers, Becomes, into};

use interval_handle::Handle;
use std::alloc::Global;

/// Opens a closed handle with the set of no intervals.
#[unsafe(no_mangle)]
pub extern "C" fn pam_x_intervals_new(alloc: Global, set: &mut Handle) -> u8
    ensures { Becomes (into set.old.intervals (Some [])) result set.old.intervals set.new.intervals }
{
    interval_handle::new(alloc, set)
}

/// Closes a handle, in O(n) for what no other set shares; one that is closed stays so.
#[unsafe(no_mangle)]
pub extern "C" fn pam_x_intervals_free(alloc: Global, set: &mut Handle) -> u8
    ensures status { result ≡ 0 }
    ensures closed { set.new.intervals ≡ None }
{
    interval_handle::free(alloc, set)
}

/// Opens a closed handle with the set of another, in O(1).
#[unsafe(no_mangle)]
pub extern "C" fn pam_x_intervals_share(alloc: Global, set: &mut Handle, out: &mut Handle) -> u8
    ensures made { Becomes (into out.old.intervals set.old.intervals) result out.old.intervals out.new.intervals }
    ensures same { set.new.intervals ≡ set.old.intervals }
{
    interval_handle::share(alloc, set, out)
}

/// Opens a closed handle with the set of the intervals of two arrays, in O(n * log n) for n intervals. It is a bad call where the
/// arrays differ in length, or a left end is greater than its right end.
#[unsafe(no_mangle)]
pub extern "C" fn pam_x_intervals_build(
    alloc: Global,
    set: &mut Handle,
    lefts: &[u64],
    rights: &[u64],
) -> u8
    ensures fit { length lefts.now ≡ length rights.now → IsTrue (are_ordered (paired lefts.now rights.now)) → Becomes (into set.old.intervals (Some (with_intervals [] (paired lefts.now rights.now)))) result set.old.intervals set.new.intervals }
    ensures unfit { ¬ (length lefts.now ≡ length rights.now) → Becomes None result set.old.intervals set.new.intervals }
    ensures unordered { ¬ IsTrue (are_ordered (paired lefts.now rights.now)) → Becomes None result set.old.intervals set.new.intervals }
{
    interval_handle::build(alloc, set, lefts, rights)
}

/// How many intervals there are, in O(1).
#[unsafe(no_mangle)]
pub extern "C" fn pam_x_intervals_len(alloc: Global, set: &mut Handle, len: &mut u64) -> u8
    ensures answer { Answers (option_map (λ is. Some (length is)) set.old.intervals) result len.old len.new }
    ensures same { set.new.intervals ≡ set.old.intervals }
{
    interval_handle::len(alloc, set, len)
}

/// Adds an interval, in O(log n) for n intervals. It is a bad call where `left` is greater than `right`.
#[unsafe(no_mangle)]
pub extern "C" fn pam_x_intervals_add(alloc: Global, set: &mut Handle, left: u64, right: u64) -> u8
    ensures ordered { left ≤ right → Becomes (option_map (λ is. with_interval is (interval left right)) set.old.intervals) result set.old.intervals set.new.intervals }
    ensures unordered { right < left → Becomes None result set.old.intervals set.new.intervals }
{
    interval_handle::add(alloc, set, left, right)
}

/// Removes an interval, in O(log n) for n intervals.
#[unsafe(no_mangle)]
pub extern "C" fn pam_x_intervals_del(alloc: Global, set: &mut Handle, left: u64, right: u64) -> u8
    ensures { ChangesThere (λ is. Contains is (interval left right)) (λ is. without_interval is (interval left right)) result set.old.intervals set.new.intervals }
{
    interval_handle::del(alloc, set, left, right)
}

/// Whether an interval has a point, in O(log n) for n intervals.
#[unsafe(no_mangle)]
pub extern "C" fn pam_x_intervals_any(alloc: Global, set: &mut Handle, point: u64) -> u8
    ensures answer { MatchOption set.old.intervals (result ≡ 4) (λ is. ((result ≡ 0) × ¬ (stab is point ≡ [])) ⊎ ((result ≡ 1) × (stab is point ≡ []))) }
    ensures same { set.new.intervals ≡ set.old.intervals }
{
    interval_handle::any(alloc, set, point)
}

/// Lists the intervals that have a point, in order, in O(log n + k log n) for k of n intervals. `count` becomes their number, also where
/// the arrays have no room for them. It is a bad call where the arrays differ in length.
#[unsafe(no_mangle)]
pub extern "C" fn pam_x_intervals_stab(
    alloc: Global,
    set: &mut Handle,
    point: u64,
    lefts: &mut [u64],
    rights: &mut [u64],
    count: &mut usize,
) -> u8
    ensures fit { length lefts.old ≡ length rights.old → Lists (option_map (λ is. stab is point) set.old.intervals) result (listing lefts.old rights.old count.old) (listing lefts.new rights.new count.new) }
    ensures unfit { ¬ (length lefts.old ≡ length rights.old) → Lists None result (listing lefts.old rights.old count.old) (listing lefts.new rights.new count.new) }
    ensures same { set.new.intervals ≡ set.old.intervals }
{
    interval_handle::stab(alloc, set, point, lefts, rights, count)
}

/// Lists the intervals that have a number from `lo` to `hi`, as `stab`. It is a bad call too where `lo` is greater than `hi`.
#[unsafe(no_mangle)]
pub extern "C" fn pam_x_intervals_overlapping(
    alloc: Global,
    set: &mut Handle,
    lo: u64,
    hi: u64,
    lefts: &mut [u64],
    rights: &mut [u64],
    count: &mut usize,
) -> u8
    ensures fit { lo ≤ hi → length lefts.old ≡ length rights.old → Lists (option_map (λ is. overlap is lo hi) set.old.intervals) result (listing lefts.old rights.old count.old) (listing lefts.new rights.new count.new) }
    ensures unfit { ¬ (length lefts.old ≡ length rights.old) → Lists None result (listing lefts.old rights.old count.old) (listing lefts.new rights.new count.new) }
    ensures unordered { hi < lo → Lists None result (listing lefts.old rights.old count.old) (listing lefts.new rights.new count.new) }
    ensures same { set.new.intervals ≡ set.old.intervals }
{
    interval_handle::overlapping(alloc, set, lo, hi, lefts, rights, count)
}

/// Lists the first intervals from the one from `from_left` to `from_right` on, which need not be there, as many as the arrays have room for:
/// those that begin after `from_left`, and those that begin there and end at least at `from_right`. `count` becomes their number.
/// O(log n + k) for k of n intervals. It is a bad call where the arrays differ in length.
#[unsafe(no_mangle)]
pub extern "C" fn pam_x_intervals_fill(
    alloc: Global,
    set: &mut Handle,
    from_left: u64,
    from_right: u64,
    lefts: &mut [u64],
    rights: &mut [u64],
    count: &mut usize,
) -> u8
    ensures fit { length lefts.old ≡ length rights.old → Lists (option_map (λ is. take (length lefts.old) (intervals_from is (interval from_left from_right))) set.old.intervals) result (listing lefts.old rights.old count.old) (listing lefts.new rights.new count.new) }
    ensures unfit { ¬ (length lefts.old ≡ length rights.old) → Lists None result (listing lefts.old rights.old count.old) (listing lefts.new rights.new count.new) }
    ensures same { set.new.intervals ≡ set.old.intervals }
{
    interval_handle::fill(alloc, set, from_left, from_right, lefts, rights, count)
}
