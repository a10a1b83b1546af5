//! Points in the plane.
ghost use Rattle.std.specs.Prelude.{◌≡◌, ◌↔◌, ℕ, ◌+◌, ◌≤◌, [], length, map, IfOk, IfSome, IsNone};
ghost use Rattle.aug_monoid.specs.Exact.{pair64_cmp};
ghost use Rattle.aug_monoid.specs.Fresh.{IsFresh};
ghost use Rattle.map_model.specs.Entries.{AllKeys, IsIncreasing, lookup};
ghost use Rattle.map_model.specs.Operations.{after, dels, puts};
ghost use Rattle.range_tree.specs.Costs.{IsHighest, sum_cost};
ghost use Rattle.range_tree.specs.Listings.{by_rows};
ghost use Rattle.range_tree.specs.Places.{IsPlace};
ghost use Rattle.range_tree.specs.Points.{entry_of, inside, point_of, total_of, weight_at};

use crate::listings::RowPoints;
use crate::places::{greatest_at, least_at};
use crate::points::{Point, Rect, Total};
use crate::rows::{Places, Rows};
use crate::totals::RowTotal;
use aug_map::Map;
use aug_monoid::{NoMemory, Pair64, Share, Steps};
use fork_join::{Cut, Gate, On};
use row_leaf::RowLeaf;
use std::alloc::Global;
use std::marker::{Brand, Model, Sync};
use std::sync::ledger::{Blank, Ledger};
use std::thread::Threads;

/// A map from (x, y) to weight, with the same points by (y, x), in blocks of 64 to 128 points that are stored as gaps between columns.
pub type PointMap = Map<Places, RowLeaf, 64>;

/// Points in the plane, one at a place. Contracts see the map from (x, y) to weight.
pub struct Points {
    pub(crate) map: PointMap,
}

impl Model for Points {
    ghost use Rattle.std.specs.Prelude.{List, ℕ};
    ghost use Rattle.aug_monoid.specs.declared.pair64.Pair64.{Pair64};
    ghost use Rattle.map_model.specs.Entries.{AllKeys};
    ghost use Rattle.range_tree.specs.Places.{IsPlace};

    ghost Value = { List (Pair64 × ℕ) };

    ghost view = { λ p. p.map.entries };

    ghost invariant = { λ p. AllKeys IsPlace p.map.entries };
}

impl Drop for Points {
    fn drop(self) {
        let Points { map } = self;
        drop(map);
    }
}

impl Share for Points {
    ghost never_refuses = { ⊥ };

    /// The same points, in O(1) and in the memory of these.
    fn share(&self, alloc: Global) -> Result<Points, NoMemory> {
        let map = self.map.share(alloc)?;
        Ok(Points { map })
    }
}

impl Points {
    /// No points. It takes no memory. O(1).
    pub fn new() -> Points
        ensures { result ≡ [] }
    {
        Points { map: Map::empty() }
    }

    // The map of points that are given up.
    pub(crate) fn into_map(self) -> PointMap
        ensures same { result.entries ≡ self }
        ensures fit { AllKeys IsPlace result.entries }
    {
        let Points { map } = self;
        map
    }

    /// These points, set in order, so that a later point replaces an earlier one at its place: what `add` makes of no points, at
    /// once and on one thread. O(k * log k) for k points.
    #[tactic(auto, using(crate::proofs::Kept::all_after_puts))]
    pub fn from_points(alloc: Global, points: &[Point]) -> Result<Points, NoMemory>
        ensures { IfOk result (λ made. made ≡ after pair64_cmp [] (puts (map entry_of points.now))) }
    {
        let entries = entries_of(alloc, points)?;
        let map = PointMap::build_alone(alloc, &entries)?;
        Ok(Points { map })
    }

    /// How many points there are. O(1).
    pub fn size(&self) -> u64
        ensures value { result ≡ length self.now }
        ensures increasing { IsIncreasing pair64_cmp self.now }
    {
        self.map.size()
    }

    /// Lends the map from (x, y) to weight. O(1).
    pub fn map(&self) -> &PointMap
        ensures { result.now.entries ≡ self.now }
    {
        &self.map
    }

    /// The same points by (y, x), which are stored; none exactly where there are no points. O(1).
    pub fn rows(&self) -> Option<&Rows>
        ensures none { IsNone result ↔ (self.now ≡ []) }
        ensures same { IfSome result (λ rows. rows.now ≡ by_rows self.now) }
    {
        let _number = self.map.size(); // for the proof alone: keys rise
        self.map.aug()
    }

    /// With these points set in order, so that a later point replaces an earlier one at its place. It is one bulk operation,
    /// which forks where the cut allows it. O((n + k) * log(k + 1)) work for k points added to n, as all rows above a changed
    /// block are made anew.
    #[tactic(auto, using(crate::proofs::Kept::all_after_puts))]
    pub fn add<R: Threads + Sync, G: Gate>(
        &self,
        rt: &R,
        alloc: Global,
        gate: &G,
        cut: Cut,
        points: &[Point],
    ) -> Result<Points, NoMemory>
        ensures { IfOk result (λ more. more ≡ after pair64_cmp self.now (puts (map entry_of points.now))) }
    {
        let entries = entries_of(alloc, points)?;
        let map = with_entries(
            On { rt, gate, cut },
            alloc,
            self.map.share(alloc)?,
            &entries,
        )?;
        Ok(Points { map })
    }

    /// `add` on one thread. O((n + k) * log(k + 1)) for k points added to n.
    #[tactic(auto, using(crate::proofs::Kept::all_after_puts))]
    pub fn add_alone(&self, alloc: Global, points: &[Point]) -> Result<Points, NoMemory>
        ensures { IfOk result (λ more. more ≡ after pair64_cmp self.now (puts (map entry_of points.now))) }
    {
        let entries = entries_of(alloc, points)?;
        let map = self
            .map
            .share(alloc)?
            .multi_put_into_alone(alloc, &entries)?;
        Ok(Points { map })
    }

    /// Without the points at these places (x, y); places that have none change nothing. It is one bulk operation, which forks
    /// where the cut allows it. The work of `add`.
    #[tactic(auto, using(crate::proofs::Kept::all_after_dels))]
    pub fn del<R: Threads + Sync, G: Gate>(
        &self,
        rt: &R,
        alloc: Global,
        gate: &G,
        cut: Cut,
        places: &[Pair64],
    ) -> Result<Points, NoMemory>
        ensures { IfOk result (λ fewer. fewer ≡ after pair64_cmp self.now (dels places.now)) }
    {
        let map = self.map.multi_del(rt, alloc, gate, cut, places)?;
        Ok(Points { map })
    }

    /// `del` on one thread. O((n + k) * log(k + 1)) for k places and n points.
    #[tactic(auto, using(crate::proofs::Kept::all_after_dels))]
    pub fn del_alone(&self, alloc: Global, places: &[Pair64]) -> Result<Points, NoMemory>
        ensures { IfOk result (λ fewer. fewer ≡ after pair64_cmp self.now (dels places.now)) }
    {
        let map = self.map.multi_del_alone(alloc, places)?;
        Ok(Points { map })
    }

    /// The weight of the point at a place; none exactly where there is no point. It takes no memory, and refuses nothing.
    /// O(log n) for n points.
    pub fn get(&self, alloc: Global, x: u64, y: u64) -> Option<u64>
        ensures { result ≡ weight_at self.now x y }
    {
        let place = Pair64 {
            first: x,
            second: y,
        };
        weight_at::<Brand>(alloc, &self.map, &place, Blank::new(1))
    }

    /// How many points are in a rectangle. O(log^2 n) for n points.
    pub fn count(&self, alloc: Global, rect: Rect) -> Result<u64, NoMemory>
        ensures { IfOk result (λ count. count ≡ length (inside rect self.now)) }
    {
        let total = self.sum(alloc, rect)?;
        Ok(total.count)
    }

    /// The total of the points in a rectangle, in about the square of the logarithm of the number of points. It is `sum_counted`
    /// with a counter that is thrown away.
    pub fn sum(&self, alloc: Global, rect: Rect) -> Result<Total, NoMemory>
        ensures { IfOk result (λ total. total ≡ total_of (inside rect self.now)) }
    {
        self.sum_with_counter::<Brand>(alloc, rect, Blank::new(1))
    }

    // The same, with a counter of its own.
    fn sum_with_counter<C: Ledger>(
        &self,
        alloc: Global,
        rect: Rect,
        blank: Blank,
    ) -> Result<Total, NoMemory>
        requires { IsFresh C.name C.parts blank }
        ensures { IfOk result (λ total. total ≡ total_of (inside rect self.now)) }
    {
        let mut steps = Steps::<C>::start(blank);
        self.sum_counted(alloc, rect, &mut steps)
    }

    /// `sum` with its steps counted, those in the rows too: for each `height` that no map of as many points exceeds, at most
    /// `(4 * height + 257) * (11 * height + 1793) + (2 * height + 256)`.
    pub fn sum_counted<C: Ledger>(
        &self,
        alloc: Global,
        rect: Rect,
        steps: &mut Steps<C>,
    ) -> Result<Total, NoMemory>
        ensures total { IfOk result (λ total. total ≡ total_of (inside rect self.now)) }
        ensures cost { (height : ℕ) → IsHighest (length self.now) height → steps.new ≤ steps.old + sum_cost height }
    {
        let _number = self.map.size(); // for the proof alone: keys rise
        let _height = self.map.height(); // for the proof alone: how high so many points may be
        let how = RowTotal {
            y1: rect.y1,
            y2: rect.y2,
        };
        let lo = least_at(rect.x1);
        let hi = greatest_at(rect.x2);
        self.map.aug_project_in_steps(alloc, &lo, &hi, &how, steps)
    }

    /// The points in a rectangle by (x, y), in about the time of `sum` and the time to sort them.
    pub fn list(&self, alloc: Global, rect: Rect) -> Result<Vec<Point>, NoMemory>
        ensures { IfOk result (λ list. list.items ≡ map point_of (inside rect self.now)) }
    {
        let _number = self.map.size(); // for the proof alone: keys rise
        let how = RowPoints {
            y1: rect.y1,
            y2: rect.y2,
        };
        let listed = self
            .map
            .aug_project(alloc, &least_at(rect.x1), &greatest_at(rect.x2), &how)?;
        points_of(alloc, listed.entries())
    }
}

// The weight at a place, with a counter that the caller gives up.
fn weight_at<C: Ledger>(alloc: Global, map: &PointMap, place: &Pair64, blank: Blank) -> Option<u64>
    requires { IsFresh C.name C.parts blank }
    ensures { result ≡ lookup pair64_cmp map.now.entries place.now }
{
    let mut steps = Steps::<C>::start(blank);
    match map.get(alloc, place, &mut steps) {
        Ok(weight) => weight,
        Err(NoMemory) => unreachable!(),
    }
}

/// A map with entries put in order. A batch of more entries than the map has becomes a map first: that forks as it is made, where a
/// list that is put into few blocks would not.
pub(crate) fn with_entries<R: Threads + Sync, G: Gate>(
    on: On<R, G>,
    alloc: Global,
    map: PointMap,
    entries: &[(Pair64, u64)],
) -> Result<PointMap, NoMemory>
    ensures { IfOk result (λ more. more.entries ≡ after pair64_cmp map.entries (puts entries.now)) }
{
    if map.size() < entries.len() as u64 {
        return map.multi_put(on.rt, alloc, on.gate, on.cut, entries);
    }
    map.multi_put_into(on.rt, alloc, on.gate, on.cut, entries)
}

/// Points as entries of the map.
pub(crate) fn entries_of(alloc: Global, points: &[Point]) -> Result<Vec<(Pair64, u64)>, NoMemory>
    ensures same { IfOk result (λ entries. entries.items ≡ map entry_of points.now) }
    ensures fit { IfOk result (λ entries. AllKeys IsPlace entries.items) }
{
    let mut entries = Vec::with_capacity(alloc, points.len())?;
    for point in points {
        entries.push(entry_of(*point))?;
    }
    Ok(entries)
}

/// A point as an entry of the map.
fn entry_of(point: Point) -> (Pair64, u64)
    ensures same { result ≡ entry_of point }
    ensures fit { IsPlace result.0 }
{
    let place = Pair64 {
        first: point.x,
        second: point.y,
    };
    (place, point.weight)
}

/// Entries of the map as points.
fn points_of(alloc: Global, entries: &[(Pair64, u64)]) -> Result<Vec<Point>, NoMemory>
    ensures { IfOk result (λ points. points.items ≡ map point_of entries.now) }
{
    let points = entries
        .iter()
        .map(|entry| Point {
            x: entry.0.first,
            y: entry.0.second,
            weight: entry.1,
        })
        .collect(alloc)?;
    Ok(points)
}
