//! The parts of the line that the intervals of a set cover.
ghost use Rattle.std.specs.Prelude.{IfOk};
ghost use Rattle.interval_map.specs.Merged.{IsMerged};

use crate::intervals::Intervals;
use aug_monoid::{NoMemory, Pair64};
use std::alloc::Global;

impl Intervals {
    /// The parts of the line that the intervals cover, in order: intervals that share a number are joined, and those that only
    /// touch, as [1, 2] and [3, 4], are not. O(n) for n intervals.
    ///
    ///     let set = Intervals::new().add(alloc, 1, 4)?.add(alloc, 3, 6)?.add(alloc, 7, 9)?;
    ///     set.merged(alloc)?     // the intervals from 1 to 6 and from 7 to 9
    pub fn merged(&self, alloc: Global) -> Result<Vec<Pair64>, NoMemory>
        ensures { IfOk result (λ merged. IsMerged self.now merged.items) }
    {
        let _number = self.map.len(); // for the proof alone: intervals rise
        let mut merged = Vec::new(alloc);
        let mut entries = self.map.iter(alloc);
        let Some(first) = entries.next() else {
            return Ok(merged);
        };
        let (mut last, ()) = first?;
        for entry in entries {
            let (next, ()) = entry?;
            if next.first <= last.second {
                last.second = last.second.max(next.second);
            } else {
                merged.push(last)?;
                last = next;
            }
        }
        merged.push(last)?;
        Ok(merged)
    }
}
