//! Sets of many intervals, by a sort of numbers that stand for them.
ghost use Rattle.std.specs.Prelude.{◌≡◌, [], IfOk, map};
ghost use Rattle.std.specs.List.Sorted.{IsPermutation};
ghost use Rattle.std.specs.Map.{keys_of};
ghost use Rattle.interval_map.specs.Intervals.{with_intervals};
ghost use Rattle.interval_map.specs.Numbers.{interval_of, number_of};

use aug_map::PlainMap;
use aug_monoid::{MaxRight, NoMemory, Pair64};
use std::alloc::Global;

/// How many right ends an interval may have.
const RIGHT_ENDS: u128 = 1 << 64;

/// So many intervals are put at once, so that what they are copied to meanwhile stays in the processor's caches.
const PUT_AT_ONCE: usize = 1024;

// The number that stands for an interval: of two intervals the first one in order has the lesser number.
fn number_of(interval: &Pair64) -> u128
    ensures { result ≡ number_of interval.now }
{
    interval.first as u128 * RIGHT_ENDS + interval.second as u128
}

// The interval that a number stands for.
fn interval_of(number: u128) -> Pair64
    ensures { result ≡ interval_of number }
{
    Pair64 {
        first: (number / RIGHT_ENDS) as u64,
        second: (number % RIGHT_ENDS) as u64,
    }
}

// The numbers that stand for intervals.
fn numbers_of(alloc: Global, intervals: &[Pair64]) -> Result<Vec<u128>, NoMemory>
    ensures { IfOk result (λ numbers. numbers.items ≡ map number_of intervals.now) }
{
    let mut numbers = Vec::with_capacity(alloc, intervals.len())?;
    for interval in intervals {
        numbers.push(number_of(interval))?;
    }
    Ok(numbers)
}

/// The numbers that stand for intervals, from the least on: they are compared and moved in less time than the intervals. The stable
/// sort takes less time for them than the unstable one, but memory besides. O(n * log n) for n intervals.
pub(crate) fn sorted_numbers(alloc: Global, intervals: &[Pair64]) -> Result<Vec<u128>, NoMemory>
    ensures { IfOk result (λ numbers. IsPermutation (map number_of intervals.now) numbers.items) }
{
    let mut numbers = numbers_of(alloc, intervals)?;
    numbers.sort()?;
    Ok(numbers)
}

// An entry for each interval that a number stands for.
fn entries_of(alloc: Global, numbers: &[u128]) -> Result<Vec<(Pair64, ())>, NoMemory>
    ensures { IfOk result (λ entries. keys_of entries.items ≡ map interval_of numbers.now) }
{
    let mut entries = Vec::with_capacity(alloc, numbers.len())?;
    for number in numbers {
        entries.push((interval_of(*number), ()))?;
    }
    Ok(entries)
}

/// The map from the intervals that numbers stand for, in whatever order these come. O(n * log n) for n numbers, and O(n) where each
/// is at least the one before.
pub(crate) fn map_of(alloc: Global, numbers: &[u128]) -> Result<PlainMap<MaxRight>, NoMemory>
    ensures { IfOk result (λ made. keys_of made.entries ≡ with_intervals [] (map interval_of numbers.now)) }
{
    let mut made = PlainMap::empty();
    for chunk in numbers.chunks(PUT_AT_ONCE) {
        let entries = entries_of(alloc, chunk)?;
        made = made.multi_put_into_alone(alloc, &entries)?;
    }
    Ok(made)
}
