//! Which intervals of a map have a point, or a point of a range, and what stands at an interval.
ghost use Rattle.std.specs.Prelude.{◌≡◌, ◌↔◌, [], Contains, IfOk, IfSome, IsNone, IsOk, IsTrue};
ghost use Rattle.std.specs.List.{slice_get};
ghost use Rattle.std.specs.Map.{keys_of};
ghost use Rattle.aug_monoid.specs.Spans.{span, span_cmp};
ghost use Rattle.map_model.specs.Entries.{lookup};
ghost use Rattle.map_model.specs.Parts.{left_of};
ghost use Rattle.interval_map.specs.IntervalMaps.{begun, contained, overlapping, stab};

use crate::right_ends::{EndsAtLeast, reaches};
use crate::valued::IntervalMap;
use aug_monoid::{Key, MaxRightOf, NoMemory, Share, Span};
use ord_map::OrdMap;
use std::alloc::Global;
use std::ops::Bound;

// From `hi` to the greatest right end of all: the intervals that begin at most at `hi` are those up to it. None only where there is no
// interval.
fn last_begun<E: Key, V: Share>(
    alloc: Global,
    map: &OrdMap<MaxRightOf<E, V>>,
    hi: &E,
) -> Result<Option<Span<E>>, NoMemory>
    ensures none { IfOk result (λ last. IsNone last → map.now ≡ []) }
    ensures last { IfOk result (λ last. IfSome last (λ last. left_of (span_cmp E.cmp) map.now last ≡ begun E.cmp map.now hi.now)) }
    ensures succeeds { E.never_refuses → IsOk result }
{
    let Some(greatest) = map.fold() else {
        return Ok(None);
    };
    let Some(right) = greatest else {
        return Ok(None);
    };
    let last = Span::between(alloc, hi, right)?;
    Ok(Some(last))
}

// The map of the intervals that begin at most at `hi`.
fn begun<E: Key, V: Share>(
    alloc: Global,
    map: &OrdMap<MaxRightOf<E, V>>,
    hi: &E,
) -> Result<OrdMap<MaxRightOf<E, V>>, NoMemory>
    ensures { IfOk result (λ part. part ≡ begun E.cmp map.now hi.now) }
{
    let _number = map.len(); // for the proof alone: keys rise
    let Some(last) = last_begun(alloc, map, hi)? else {
        return Ok(OrdMap::new());
    };
    let Some((first, _val)) = map.first(alloc)? else {
        return Ok(OrdMap::new());
    };
    map.range(alloc, &first, &last)
}

impl<E: Key, V: Share> IntervalMap<E, V> {
    /// The value of the interval from `left` to `right`, if it is there. O(log n).
    pub fn get(&self, alloc: Global, left: &E, right: &E) -> Result<Option<V>, NoMemory>
        ensures value { IfOk result (λ val. val ≡ lookup (span_cmp E.cmp) self.now (span left.now right.now)) }
        ensures succeeds { E.never_refuses → V.never_refuses → IsOk result }
    {
        let ends = Span::between(alloc, left, right)?;
        self.map.get(alloc, &ends)
    }

    /// Whether the interval from `left` to `right` is there. O(log n). It makes shares of the two ends, and refuses where these refuse.
    pub fn contains(&self, alloc: Global, left: &E, right: &E) -> Result<bool, NoMemory>
        ensures value { IfOk result (λ found. IsTrue found ↔ Contains (keys_of self.now) (span left.now right.now)) }
        ensures succeeds { E.never_refuses → V.never_refuses → IsOk result }
    {
        let ends = Span::between(alloc, left, right)?;
        self.map.contains_key(alloc, &ends)
    }

    /// Whether an interval has `p`. O(log n).
    pub fn any(&self, alloc: Global, p: &E) -> Result<bool, NoMemory>
        ensures value { IfOk result (λ found. IsTrue found ↔ ¬ (stab E.cmp self.now p.now ≡ [])) }
        ensures succeeds { E.never_refuses → IsOk result }
    {
        self.any_overlapping(alloc, p, p)
    }

    /// Whether an interval begins at most at `hi` and ends at least at `lo`. O(log n).
    pub fn any_overlapping(&self, alloc: Global, lo: &E, hi: &E) -> Result<bool, NoMemory>
        ensures value { IfOk result (λ found. IsTrue found ↔ ¬ (overlapping E.cmp self.now lo.now hi.now ≡ [])) }
        ensures succeeds { E.never_refuses → IsOk result }
    {
        let Some(last) = last_begun(alloc, &self.map, hi)? else {
            return Ok(false);
        };
        let right = self.map.fold_to(alloc, &last)?;
        Ok(reaches(lo, &right))
    }

    /// The first of the entries that `overlapping` answers; none exactly where there are none. O(log n). It makes no map.
    pub fn first_overlapping(
        &self,
        alloc: Global,
        lo: &E,
        hi: &E,
    ) -> Result<Option<(Span<E>, V)>, NoMemory>
        ensures value { IfOk result (λ first. first ≡ slice_get (overlapping E.cmp self.now lo.now hi.now) 0) }
        ensures succeeds { E.never_refuses → V.never_refuses → IsOk result }
    {
        let _number = self.map.len(); // for the proof alone: keys rise
        let Some(first) = self.map.first_where(alloc, &EndsAtLeast { least: lo })? else {
            return Ok(None);
        };
        if first.0.left.cmp(hi).is_le() {
            Ok(Some(first))
        } else {
            Ok(None)
        }
    }

    /// The entries of the intervals that have `p`, in order. O(log n + k * log(n / k + 1)) where k of n have it.
    pub fn stab(&self, alloc: Global, p: &E) -> Result<Vec<(Span<E>, V)>, NoMemory>
        ensures { IfOk result (λ hits. hits.items ≡ stab E.cmp self.now p.now) }
    {
        self.overlapping(alloc, p, p)
    }

    /// The entries of the intervals that begin at most at `hi` and end at least at `lo`, in order, in the time of `stab`. Where `lo`
    /// is at most `hi`, these are the intervals that have a point from `lo` to `hi`.
    pub fn overlapping(&self, alloc: Global, lo: &E, hi: &E) -> Result<Vec<(Span<E>, V)>, NoMemory>
        ensures { IfOk result (λ hits. hits.items ≡ overlapping E.cmp self.now lo.now hi.now) }
    {
        let begun = begun(alloc, &self.map, hi)?;
        let hits = begun.filter_fold(alloc, &EndsAtLeast { least: lo })?;
        hits.to_vec(alloc)
    }

    /// The entries of the intervals that begin at least at `lo` and end at most at `hi`, in order. It goes over those that begin from
    /// `lo` to `hi` and makes no map of them: O(log n + k) for n intervals of which k begin there.
    pub fn contained_in(&self, alloc: Global, lo: &E, hi: &E) -> Result<Vec<(Span<E>, V)>, NoMemory>
        ensures { IfOk result (λ inside. inside.items ≡ contained E.cmp self.now lo.now hi.now) }
    {
        let least = Span::between(alloc, lo, lo)?;
        let greatest = Span::between(alloc, hi, hi)?;
        let begun = self
            .map
            .range_iter(alloc, Bound::Included(&least), Bound::Included(&greatest));
        let mut inside = Vec::new(alloc);
        for entry in begun {
            let entry = entry?;
            if entry.0.right.cmp(hi).is_le() {
                inside.push(entry)?;
            }
        }
        Ok(inside)
    }
}
