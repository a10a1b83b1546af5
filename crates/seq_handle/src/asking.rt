//! What sequences tell.
ghost use Rattle.std.specs.Prelude.{◌≡◌, ℕ, List, Some, drop as dropped, length, take as taken};
ghost use Rattle.std.specs.Option.{option_map};
ghost use Rattle.aug_monoid.specs.Totals.{totals};
ghost use Rattle.loose.specs.Arrays.{overwritten};
ghost use Rattle.loose.specs.Statuses.{Answers};
ghost use Rattle.seq_handle.specs.Totals.{totals_of};

use crate::handle::{Handle, keep, take};
use crate::inner::Numbers;
use crate::status::{BAD_CALL, OK};
use crate::sums::run_totals;
use aug_monoid::Totals;
use std::alloc::Global;
use std::marker::Brand;
use std::sync::ledger::Blank;

/// How many items there are, in O(1).
pub fn len(alloc: Global, seq: &mut Handle, len: &mut u64) -> u8
    ensures answer { Answers (option_map (λ s. Some (length s)) seq.old.items) result len.old len.new }
    ensures same { seq.new.items ≡ seq.old.items }
{
    let Some(kept) = take(alloc, seq) else {
        return BAD_CALL;
    };
    *len = kept.seq.size();
    keep(seq, kept);
    OK
}

/// The sum of all items, or `u64::MAX` where that is less, and the greatest item; both are 0 where there are no items. O(1).
pub fn fold(alloc: Global, seq: &mut Handle, sum: &mut u64, greatest: &mut u64) -> u8
    ensures answer { Answers (option_map (λ s. Some (totals_of s)) seq.old.items) result (totals sum.old greatest.old) (totals sum.new greatest.new) }
    ensures same { seq.new.items ≡ seq.old.items }
{
    let Some(kept) = take(alloc, seq) else {
        return BAD_CALL;
    };
    let all = kept.seq.sum(alloc);
    keep(seq, kept);
    write_totals(all, sum, greatest);
    OK
}

/// As `fold`, of the first `count` items after the first `from`, or as many as there are, in O(log n + B) for n items in blocks of
/// B.
pub fn fold_range(
    alloc: Global,
    seq: &mut Handle,
    from: u64,
    count: u64,
    sum: &mut u64,
    greatest: &mut u64,
) -> u8
    ensures answer { Answers (option_map (λ s. Some (totals_of (taken count (dropped from s)))) seq.old.items) result (totals sum.old greatest.old) (totals sum.new greatest.new) }
    ensures same { seq.new.items ≡ seq.old.items }
{
    let Some(kept) = take(alloc, seq) else {
        return BAD_CALL;
    };
    let run = run_totals::<Brand>(alloc, &kept.seq, from, count, Blank::new(1));
    keep(seq, kept);
    write_totals(run, sum, greatest);
    OK
}

fn write_totals(all: Totals, sum: &mut u64, greatest: &mut u64)
    ensures { totals sum.new greatest.new ≡ all }
{
    *sum = all.sum;
    *greatest = all.greatest;
}

/// Writes the items from a place on into an array, as many as fit, and how many they are. O(log n + k) for k items written.
pub fn fill(
    alloc: Global,
    seq: &mut Handle,
    from_place: u64,
    items: &mut [u64],
    count: &mut usize,
) -> u8
    ensures answer { Answers {X = List ℕ × ℕ} (option_map (λ s. let first = taken (length items.old) (dropped from_place s) in Some (overwritten items.old first, length first)) seq.old.items) result (items.old, count.old) (items.new, count.new) }
    ensures same { seq.new.items ≡ seq.old.items }
{
    let Some(kept) = take(alloc, seq) else {
        return BAD_CALL;
    };
    *count = write_items(&kept.seq, from_place, items);
    keep(seq, kept);
    OK
}

/// Writes the items from a place on into an array, as many as fit, and answers how many they are.
fn write_items(seq: &Numbers, from_place: u64, items: &mut [u64]) -> usize
    ensures written { items.new ≡ overwritten items.old (taken (length items.old) (dropped from_place seq.now.items)) }
    ensures count { result ≡ length (taken (length items.old) (dropped from_place seq.now.items)) }
{
    let mut count: usize = 0;
    for item in seq.cursor(from_place) {
        if count >= items.len() {
            return count;
        }
        items[count] = *item;
        count += 1;
    }
    count
}
