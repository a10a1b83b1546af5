//! Points that their owner changes, or gives up.
ghost use Rattle.std.specs.Prelude.{◌≡◌, map, IfOk, OnErr};
ghost use Rattle.aug_monoid.specs.Exact.{pair64_cmp};
ghost use Rattle.map_model.specs.Entries.{AllKeys, drop_key, set};
ghost use Rattle.map_model.specs.Operations.{after, puts};
ghost use Rattle.range_tree.specs.Places.{IsPlace, place};
ghost use Rattle.range_tree.specs.Points.{entry_of, weight_at};

use crate::points::Point;
use crate::tree::{PointMap, Points, entries_of, with_entries};
use aug_monoid::{NoMemory, Pair64};
use fork_join::{Cut, Gate, On};
use std::alloc::Global;
use std::marker::Sync;
use std::thread::Threads;

impl Points {
    /// `add` of points that are given up: what of their map has one owner is moved, and what has more is copied, so that copies that
    /// were taken before stay as they were. In the time of `add`, and a refusal gives the points up.
    #[tactic(auto, using(crate::proofs::Kept::all_after_puts))]
    pub fn add_into<R: Threads + Sync, G: Gate>(
        self,
        rt: &R,
        alloc: Global,
        gate: &G,
        cut: Cut,
        points: &[Point],
    ) -> Result<Points, NoMemory>
        ensures { IfOk result (λ more. more ≡ after pair64_cmp self (puts (map entry_of points.now))) }
    {
        let entries = entries_of(alloc, points)?;
        let map = with_entries(On { rt, gate, cut }, alloc, self.into_map(), &entries)?;
        Ok(Points { map })
    }

    /// `add_into` on one thread. O((n + k) * log(k + 1)) for k points added to n.
    #[tactic(auto, using(crate::proofs::Kept::all_after_puts))]
    pub fn add_into_alone(self, alloc: Global, points: &[Point]) -> Result<Points, NoMemory>
        ensures { IfOk result (λ more. more ≡ after pair64_cmp self (puts (map entry_of points.now))) }
    {
        let entries = entries_of(alloc, points)?;
        let map = self.into_map().multi_put_into_alone(alloc, &entries)?;
        Ok(Points { map })
    }

    /// Sets a point, and answers the weight of the one that stood at its place. After a refusal the points are as they were, and copies
    /// that were taken before stay as they were in any case. O(n) for n points, as `add` of one point: many go in faster by one `add`.
    pub fn insert(&mut self, alloc: Global, point: Point) -> Result<Option<u64>, NoMemory>
        ensures value { IfOk result (λ old. old ≡ weight_at self.old point.x point.y) }
        ensures after { IfOk result (λ _. self.new ≡ set pair64_cmp self.old (place point.x point.y) point.weight) }
        ensures kept { OnErr result (self.new ≡ self.old) }
    {
        let old = self.get(alloc, point.x, point.y);
        *self = self.add_alone(alloc, &[point])?;
        Ok(old)
    }

    /// Removes the point at a place, which need not have one, and answers its weight. After a refusal the points are as they were.
    /// O(n) for n points, as `del` of one place.
    pub fn remove(&mut self, alloc: Global, x: u64, y: u64) -> Result<Option<u64>, NoMemory>
        ensures value { IfOk result (λ old. old ≡ weight_at self.old x y) }
        ensures after { IfOk result (λ _. self.new ≡ drop_key pair64_cmp self.old (place x y)) }
        ensures kept { OnErr result (self.new ≡ self.old) }
    {
        let _number = self.size(); // for the proof alone: places rise
        let Some(old) = self.get(alloc, x, y) else {
            return Ok(None);
        };
        let place = Pair64 {
            first: x,
            second: y,
        };
        *self = self.del_alone(alloc, &[place])?;
        Ok(Some(old))
    }
}
