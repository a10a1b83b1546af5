//! Which intervals have a number, or a number of a range, and which are there.
ghost use Rattle.std.specs.Prelude.{◌≡◌, ◌↔◌, ◌+◌, ◌*◌, ◌≤◌, ℕ, [], Contains, IfOk, IsTrue, length, slice_get, take};
ghost use Rattle.std.specs.Map.{keys_of};
ghost use Rattle.aug_monoid.specs.Exact.{pair64_cmp};
ghost use Rattle.map_model.specs.Parts.{slice};
ghost use Rattle.interval_map.specs.Heights.{IsHighest};
ghost use Rattle.interval_map.specs.Intervals.{contained, interval, intervals_from, overlap, stab};

use crate::ends::EndsFrom;
use crate::intervals::{Intervals, interval};
use aug_monoid::{AugTest, MaxRight, NoMemory, Pair64, Steps};
use ord_map::OrdMap;
use std::alloc::Global;
use std::ops::Bound;
use std::sync::ledger::Ledger;

// The first `count` keys of a map in order.
fn first_keys(alloc: Global, map: &OrdMap<MaxRight>, count: usize) -> Result<Vec<Pair64>, NoMemory>
    ensures { IfOk result (λ keys. keys.items ≡ take count (keys_of map.now)) }
{
    let mut keys = Vec::new(alloc);
    for entry in map.iter(alloc) {
        if keys.len() >= count {
            return Ok(keys);
        }
        let (key, ()) = entry?;
        keys.push(key)?;
    }
    Ok(keys)
}

// The entries of the intervals that begin at most at `hi`.
fn begun(alloc: Global, map: &OrdMap<MaxRight>, hi: u64) -> Result<OrdMap<MaxRight>, NoMemory>
    ensures { IfOk result (λ begun. begun ≡ slice pair64_cmp map.now (interval 0 0) (interval hi u64.MAX)) }
{
    map.range(alloc, &interval(0, 0), &interval(hi, u64::MAX))
}

impl Intervals {
    /// Whether the interval from `left` to `right` is there, in time that grows with the logarithm of the number of intervals. It
    /// takes no memory, and refuses nothing.
    pub fn contains(&self, alloc: Global, left: u64, right: u64) -> bool
        ensures { IsTrue result ↔ Contains self.now (interval left right) }
    {
        match self.map.contains_key(alloc, &interval(left, right)) {
            Ok(found) => found,
            Err(NoMemory) => unreachable!(),
        }
    }

    /// The first `count` intervals from the one from `left` to `right` on, which need not be there: those that begin after `left`,
    /// and those that begin there and end at least at `right`. All of them where there are fewer. O(log n + count) for n intervals.
    pub fn first_from(
        &self,
        alloc: Global,
        left: u64,
        right: u64,
        count: usize,
    ) -> Result<Vec<Pair64>, NoMemory>
        ensures { IfOk result (λ first. first.items ≡ take count (intervals_from self.now (interval left right))) }
    {
        let rest = self.map.at_least(alloc, &interval(left, right))?;
        first_keys(alloc, &rest, count)
    }

    /// Whether an interval has `p`, in time that grows with the logarithm of the number of intervals. It takes no memory, and
    /// refuses nothing.
    pub fn any(&self, alloc: Global, p: u64) -> bool
        ensures { IsTrue result ↔ ¬ (stab self.now p ≡ []) }
    {
        self.any_overlapping(alloc, p, p)
    }

    /// Whether an interval begins at most at `hi` and ends at least at `lo`, in the time of `any`. It takes no memory, and refuses
    /// nothing.
    pub fn any_overlapping(&self, alloc: Global, lo: u64, hi: u64) -> bool
        ensures { IsTrue result ↔ ¬ (overlap self.now lo hi ≡ []) }
    {
        match self.map.fold_to(alloc, &interval(hi, u64::MAX)) {
            Ok(right) => EndsFrom { least: lo }.passes(&right),
            Err(NoMemory) => unreachable!(),
        }
    }

    /// The first of the intervals that `overlap` answers, in time that grows with the logarithm of the number of intervals; none
    /// exactly where there are none.
    pub fn first_overlapping(
        &self,
        alloc: Global,
        lo: u64,
        hi: u64,
    ) -> Result<Option<Pair64>, NoMemory>
        ensures { IfOk result (λ first. first ≡ slice_get (overlap self.now lo hi) 0) }
    {
        let begun = begun(alloc, &self.map, hi)?;
        match begun.first_where(alloc, &EndsFrom { least: lo })? {
            Some((first, ())) => Ok(Some(first)),
            None => Ok(None),
        }
    }

    /// The intervals that have `p`, in order. Its time goes with their number, and with the logarithm of the number of intervals.
    pub fn stab(&self, alloc: Global, p: u64) -> Result<Vec<Pair64>, NoMemory>
        ensures { IfOk result (λ hits. hits.items ≡ stab self.now p) }
    {
        self.overlap(alloc, p, p)
    }

    /// `stab` with its tests counted, as `overlap_counted` counts them.
    pub fn stab_counted<C: Ledger>(
        &self,
        alloc: Global,
        p: u64,
        tests: &mut Steps<C>,
    ) -> Result<Vec<Pair64>, NoMemory>
        ensures hits { IfOk result (λ hits. hits.items ≡ stab self.now p) }
        ensures cost { (height : ℕ) → IsHighest (length self.now) height → tests.new ≤ tests.old + (1 + length (stab self.now p) * (3 * height + 128)) }
    {
        self.overlap_counted(alloc, p, p, tests)
    }

    /// The intervals that begin at most at `hi` and end at least at `lo`, in order, in the time of `stab`. Where `lo` is at most
    /// `hi`, these are the intervals that have a number from `lo` to `hi`.
    pub fn overlap(&self, alloc: Global, lo: u64, hi: u64) -> Result<Vec<Pair64>, NoMemory>
        ensures { IfOk result (λ hits. hits.items ≡ overlap self.now lo hi) }
    {
        let begun = begun(alloc, &self.map, hi)?;
        let hits = begun.filter_fold(alloc, &EndsFrom { least: lo })?;
        hits.keys(alloc)
    }
    /// `overlap` with its tests counted: a look at a right end, or at the greatest one of a part of the set, is a step. Where k
    /// intervals are answered it takes at most `1 + k * (3 * height + 128)`, for each `height` that no set of as many intervals
    /// exceeds.
    pub fn overlap_counted<C: Ledger>(
        &self,
        alloc: Global,
        lo: u64,
        hi: u64,
        tests: &mut Steps<C>,
    ) -> Result<Vec<Pair64>, NoMemory>
        ensures hits { IfOk result (λ hits. hits.items ≡ overlap self.now lo hi) }
        ensures cost { (height : ℕ) → IsHighest (length self.now) height → tests.new ≤ tests.old + (1 + length (overlap self.now lo hi) * (3 * height + 128)) }
    {
        let begun = begun(alloc, &self.map, hi)?;
        let part = begun.into_map();
        let _height = part.height(); // for the proof alone: how high so many entries may be
        let hits = part.aug_filter_counted(alloc, &EndsFrom { least: lo }, tests)?;
        OrdMap::from_map(hits).keys(alloc)
    }

    /// The intervals that begin at least at `lo` and end at most at `hi`, in order. It goes over those that begin from `lo` to `hi`
    /// and makes no set of them: O(log n + k) for n intervals of which k begin there.
    pub fn contained_in(&self, alloc: Global, lo: u64, hi: u64) -> Result<Vec<Pair64>, NoMemory>
        ensures { IfOk result (λ inside. inside.items ≡ contained self.now lo hi) }
    {
        let least = interval(lo, 0);
        let greatest = interval(hi, u64::MAX);
        let begun = self
            .map
            .range_iter(alloc, Bound::Included(&least), Bound::Included(&greatest));
        let mut inside = Vec::new(alloc);
        for entry in begun {
            let (key, ()) = entry?;
            if key.second <= hi {
                inside.push(key)?;
            }
        }
        Ok(inside)
    }
}
