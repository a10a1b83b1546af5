//! The sum, the greatest and the least of a map's values.
ghost use Rattle.std.specs.Prelude.{◌≡◌, Some};
ghost use Rattle.std.specs.Option.{option_map};
ghost use Rattle.std.specs.Ordering.{nat_cmp};
ghost use Rattle.aug_monoid.specs.Totals.{totals};
ghost use Rattle.map_handle.specs.Folds.{least_of, range_totals, totals_of};
ghost use Rattle.map_model.specs.Parts.{slice};
ghost use Rattle.loose.specs.Statuses.{Answers, Written};

use crate::handle::{Handle, keep, take};
use crate::inner::Inner;
use crate::reading::count_within;
use crate::status::{BAD_CALL, NOT_THERE, OK};
use aug_monoid::Totals;
use std::alloc::Global;

/// The saturating sum and the greatest of the values, both 0 where there are none, in O(1).
pub fn fold(alloc: Global, map: &mut Handle, sum: &mut u64, greatest: &mut u64) -> u8
    ensures answer { Answers (option_map (λ m. Some (totals_of m)) map.old.entries) result (totals sum.old greatest.old) (totals sum.new greatest.new) }
    ensures same { map.new.entries ≡ map.old.entries }
{
    let Some(kept) = take(alloc, map) else {
        return BAD_CALL;
    };
    let all = all_totals(&kept);
    keep(map, kept);
    write_totals(all, sum, greatest);
    OK
}

fn all_totals(kept: &Inner) -> Totals
    ensures { result ≡ totals_of kept.now }
{
    match kept.map.fold() {
        Some(all) => all.totals,
        None => Totals {
            sum: 0,
            greatest: 0,
        },
    }
}

fn write_totals(all: Totals, sum: &mut u64, greatest: &mut u64)
    ensures { totals sum.new greatest.new ≡ all }
{
    *sum = all.sum;
    *greatest = all.greatest;
}

/// The saturating sum and the greatest of the values at keys from `lo` to `hi`, both included, in O(log n); both 0 where there
/// are none.
pub fn fold_range(
    alloc: Global,
    map: &mut Handle,
    lo: u64,
    hi: u64,
    sum: &mut u64,
    greatest: &mut u64,
) -> u8
    ensures answer { Answers (option_map (λ m. Some (range_totals m lo hi)) map.old.entries) result (totals sum.old greatest.old) (totals sum.new greatest.new) }
    ensures same { map.new.entries ≡ map.old.entries }
{
    let Some(kept) = take(alloc, map) else {
        return BAD_CALL;
    };
    let part = totals_within(alloc, &kept, lo, hi);
    keep(map, kept);
    write_totals(part, sum, greatest);
    OK
}

fn totals_within(alloc: Global, kept: &Inner, lo: u64, hi: u64) -> Totals
    ensures { result ≡ range_totals kept.now lo hi }
{
    match kept.map.fold_range(alloc, &lo, &hi) {
        Ok(part) => part.totals,
        Err(_) => unreachable!(),
    }
}

/// The least of the values, in O(1), if there are any.
pub fn least(alloc: Global, map: &mut Handle, least: &mut u64) -> u8
    ensures answer { Answers (option_map least_of map.old.entries) result least.old least.new }
    ensures same { map.new.entries ≡ map.old.entries }
{
    let Some(kept) = take(alloc, map) else {
        return BAD_CALL;
    };
    let found = least_of_all(&kept);
    keep(map, kept);
    write_least(found, least)
}

fn least_of_all(kept: &Inner) -> Option<u64>
    ensures { result ≡ least_of kept.now }
{
    let all = kept.map.fold()?;
    Some(all.least)
}

/// The least of the values at keys from `lo` to `hi`, both included, in O(log n), if there are any.
pub fn least_range(alloc: Global, map: &mut Handle, lo: u64, hi: u64, least: &mut u64) -> u8
    ensures answer { Answers (option_map (λ m. least_of (slice nat_cmp m lo hi)) map.old.entries) result least.old least.new }
    ensures same { map.new.entries ≡ map.old.entries }
{
    let Some(kept) = take(alloc, map) else {
        return BAD_CALL;
    };
    let found = least_within(alloc, &kept, lo, hi);
    keep(map, kept);
    write_least(found, least)
}

fn least_within(alloc: Global, kept: &Inner, lo: u64, hi: u64) -> Option<u64>
    ensures { result ≡ least_of (slice nat_cmp kept.now lo hi) }
{
    if count_within(kept, lo, hi) == 0 {
        return None;
    }
    match kept.map.fold_range(alloc, &lo, &hi) {
        Ok(part) => Some(part.least),
        Err(_) => unreachable!(),
    }
}

/// Writes what is found.
fn write_least(found: Option<u64>, least: &mut u64) -> u8
    ensures { Written found result least.old least.new }
{
    match found {
        Some(answer) => {
            *least = answer;
            OK
        }
        None => NOT_THERE,
    }
}
