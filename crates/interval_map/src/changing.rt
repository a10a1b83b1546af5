//! Sets with one interval more or less.
ghost use Rattle.std.specs.Prelude.{◌≡◌, ◌≤◌, IfOk, OnErr, OnOk};
ghost use Rattle.interval_map.specs.Intervals.{interval, with_interval, without_interval};

use crate::intervals::{Intervals, interval};
use aug_monoid::{NoMemory, Share};
use std::alloc::Global;

impl Intervals {
    /// The set with the interval from `left` to `right`, in time that grows with the logarithm of the number of intervals.
    pub fn add(&self, alloc: Global, left: u64, right: u64) -> Result<Intervals, NoMemory>
        requires { left ≤ right }
        ensures { IfOk result (λ intervals. intervals ≡ with_interval self.now (interval left right)) }
    {
        let mut intervals = self.share(alloc)?;
        intervals.add_mut(alloc, left, right)?;
        Ok(intervals)
    }

    /// Adds the interval from `left` to `right`, in the time of `add`: in place where no other set has part in what changes. After
    /// a refusal the set is as it was.
    pub fn add_mut(&mut self, alloc: Global, left: u64, right: u64) -> Result<(), NoMemory>
        requires { left ≤ right }
        ensures after { OnOk result (self.new ≡ with_interval self.old (interval left right)) }
        ensures kept { OnErr result (self.new ≡ self.old) }
    {
        self.map.put(alloc, interval(left, right), ())
    }

    /// The set without the interval from `left` to `right`, which it need not have, in the time of `add`.
    pub fn del(&self, alloc: Global, left: u64, right: u64) -> Result<Intervals, NoMemory>
        ensures { IfOk result (λ intervals. intervals ≡ without_interval self.now (interval left right)) }
    {
        let mut intervals = self.share(alloc)?;
        intervals.del_mut(alloc, left, right)?;
        Ok(intervals)
    }

    /// Removes the interval from `left` to `right`, which the set need not have, as `add_mut` adds one. After a refusal the set is as
    /// it was. O(log n) for n intervals.
    pub fn del_mut(&mut self, alloc: Global, left: u64, right: u64) -> Result<(), NoMemory>
        ensures after { OnOk result (self.new ≡ without_interval self.old (interval left right)) }
        ensures kept { OnErr result (self.new ≡ self.old) }
    {
        self.map.del(alloc, &interval(left, right))
    }
}
