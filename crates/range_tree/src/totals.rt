//! Totals of rows.
ghost use Rattle.std.specs.Prelude.{◌≡◌, ◌+◌, ◌*◌, ◌≤◌, length, IfOk};
ghost use Rattle.aug_monoid.specs.Exact.{pair64_cmp};
ghost use Rattle.map_model.specs.Parts.{left_of, slice};
ghost use Rattle.range_tree.specs.Costs.{IsRowsCost, rows_cost};
ghost use Rattle.range_tree.specs.Totals.{TotalFits, capped_total, rows_projection, rows_total, rows_total_fits};
ghost use Rattle.range_tree.specs.Totals.{total_both, total_monoid};

use crate::places::{greatest_at, least_at};
use crate::points::Total;
use crate::rows::{Places, RowMap, Rows};
use aug_monoid::{Key, NoMemory, Pair64, Project, Steps};
use std::alloc::Global;
use std::sync::ledger::Ledger;

/// The total of the points with y from `y1` to `y2`.
#[derive(Drop)]
pub(crate) struct RowTotal {
    pub(crate) y1: u64,
    pub(crate) y2: u64,
}

impl Project<Places> for RowTotal {
    type Out = Total;

    ghost Fits = { λ _. TotalFits };

    ghost image_of = { λ s rows. rows_total s.y1 s.y2 rows };

    ghost combined = { λ _. total_both };

    ghost IsImageCost = { λ _ rows most. IsRowsCost rows most };

    ghost image_fits = { λ s rows _. rows_total_fits s.y1 s.y2 rows };

    ghost monoid = { λ _. total_monoid };

    ghost projection = { λ s. rows_projection s.y1 s.y2 };

    fn image<C: Ledger>(
        &self,
        alloc: Global,
        aug: &Rows,
        steps: &mut Steps<C>,
    ) -> Result<Total, NoMemory> {
        let map = aug.map();
        let _height = map.height(); // for the proof alone: how high so many rows may be
        total_between(alloc, map, &least_at(self.y1), &greatest_at(self.y2), steps)
    }

    fn combine(&self, _alloc: Global, a: Total, b: Total) -> Result<Total, NoMemory> {
        Ok(Total {
            sum: a.sum.saturating_add(b.sum),
            count: a.count.saturating_add(b.count),
        })
    }
}

/// How many entries have keys up to `key`.
fn count_upto<C: Ledger>(
    alloc: Global,
    map: &RowMap,
    key: &Pair64,
    steps: &mut Steps<C>,
) -> Result<u64, NoMemory>
    ensures count { IfOk result (λ count. count ≡ length (left_of pair64_cmp map.now.entries key.now)) }
    ensures cost { steps.new ≤ steps.old + (2 * map.now.height + 512) }
{
    let _number = map.size(); // for the proof alone: keys rise, and there are fewer than 2^60
    let less = map.rank(key, steps);
    match map.get(alloc, key, steps)? {
        Some(_) => Ok(less + 1),
        None => Ok(less),
    }
}

/// How many entries have keys from `lo` to `hi`.
fn count_between<C: Ledger>(
    alloc: Global,
    map: &RowMap,
    lo: &Pair64,
    hi: &Pair64,
    steps: &mut Steps<C>,
) -> Result<u64, NoMemory>
    ensures count { IfOk result (λ count. count ≡ length (slice pair64_cmp map.now.entries lo.now hi.now)) }
    ensures cost { steps.new ≤ steps.old + (3 * map.now.height + 769) }
{
    if lo.order(hi, steps).is_gt() {
        return Ok(0);
    }
    let upto = count_upto(alloc, map, hi, steps)?;
    Ok(upto - map.rank(lo, steps))
}

/// The total of the entries with keys from `lo` to `hi`.
fn total_between<C: Ledger>(
    alloc: Global,
    map: &RowMap,
    lo: &Pair64,
    hi: &Pair64,
    steps: &mut Steps<C>,
) -> Result<Total, NoMemory>
    ensures total { IfOk result (λ total. total ≡ capped_total (slice pair64_cmp map.now.entries lo.now hi.now)) }
    ensures cost { steps.new ≤ steps.old + rows_cost map.now.height }
{
    let _number = map.size(); // for the proof alone: keys rise, and there are fewer than 2^60
    let sum = map.aug_range(alloc, lo, hi, steps)?.sum;
    let count = count_between(alloc, map, lo, hi, steps)?;
    Ok(Total { sum, count })
}
