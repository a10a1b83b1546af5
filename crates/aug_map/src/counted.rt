//! Operations on two whole maps on one thread, with their steps counted: comparisons of keys, and combinations of augmented values.
//! What `how` does to values is not counted.
ghost use Rattle.std.specs.Prelude.{ℕ, ◌≡◌, ◌+◌, ◌*◌, ◌≤◌, IfOk, length, min};
ghost use Rattle.map_model.specs.Balance.{weight};
ghost use Rattle.map_model.specs.SetOperations.{difference, intersect, union};
ghost use Rattle.bulk_ops.specs.Costs.{IsDeepEnough, step_cost};

use crate::map::Map;
use aug_monoid::{NoMemory, Resolve, Steps};
use bulk_ops::{Differing, Intersecting, Uniting, combine_counted};
use std::alloc::Global;
use std::sync::ledger::Ledger;
use tree_shape::Shape;

impl<M: Shape> Map<M> {
    /// `union_alone` with its steps counted. For maps of m and n entries, m at most n, they are at most
    /// `m * (l + 1) * (128 * (l + 2) * (B + 2) + 2 * M::Leaf::FIND)` for each l with `7^l * (m + n + 2) < 8^l`.
    pub fn union_counted<H: Resolve<M::Val>, C: Ledger>(
        &self,
        alloc: Global,
        b: &Map<M>,
        how: &H,
        steps: &mut Steps<C>,
    ) -> Result<Map<M>, NoMemory>
        ensures entries { IfOk result (λ map. map.entries ≡ union M.Key.cmp (H.resolved how.now) self.now.entries b.now.entries) }
        ensures cost { IfOk result (λ _. (levels : ℕ) → IsDeepEnough levels (weight self.now.entries + weight b.now.entries) → steps.new ≤ steps.old + min (length self.now.entries) (length b.now.entries) * (levels + 1) * step_cost M.BLOCK M.Leaf.FIND levels) }
    {
        Map::from_tree(combine_counted(alloc, &Uniting { how }, &self.tree, &b.tree, steps))
    }

    /// `intersect_alone` with its steps counted, of which it takes at most as many as `union_counted`.
    pub fn intersect_counted<H: Resolve<M::Val>, C: Ledger>(
        &self,
        alloc: Global,
        b: &Map<M>,
        how: &H,
        steps: &mut Steps<C>,
    ) -> Result<Map<M>, NoMemory>
        ensures entries { IfOk result (λ map. map.entries ≡ intersect M.Key.cmp (H.resolved how.now) self.now.entries b.now.entries) }
        ensures cost { IfOk result (λ _. (levels : ℕ) → IsDeepEnough levels (weight self.now.entries + weight b.now.entries) → steps.new ≤ steps.old + min (length self.now.entries) (length b.now.entries) * (levels + 1) * step_cost M.BLOCK M.Leaf.FIND levels) }
    {
        Map::from_tree(combine_counted(alloc, &Intersecting { how }, &self.tree, &b.tree, steps))
    }

    /// `difference_alone` with its steps counted, of which it takes at most as many as `union_counted`.
    pub fn difference_counted<C: Ledger>(
        &self,
        alloc: Global,
        b: &Map<M>,
        steps: &mut Steps<C>,
    ) -> Result<Map<M>, NoMemory>
        ensures entries { IfOk result (λ map. map.entries ≡ difference M.Key.cmp self.now.entries b.now.entries) }
        ensures cost { IfOk result (λ _. (levels : ℕ) → IsDeepEnough levels (weight self.now.entries + weight b.now.entries) → steps.new ≤ steps.old + min (length self.now.entries) (length b.now.entries) * (levels + 1) * step_cost M.BLOCK M.Leaf.FIND levels) }
    {
        Map::from_tree(combine_counted(alloc, &Differing, &self.tree, &b.tree, steps))
    }
}
