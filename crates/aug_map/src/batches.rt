//! Maps of many pairs, and maps with many pairs put or many keys gone, on one thread with their steps counted: comparisons of keys,
//! and combinations of augmented values. The comparisons of a sort are not counted, since nothing is known of how many it makes.
ghost use Rattle.std.specs.Prelude.{ℕ, ◌≡◌, ◌+◌, ◌*◌, ◌≤◌, IfOk, length, min};
ghost use Rattle.map_model.specs.Operations.{after, build, dels, puts};
ghost use Rattle.aug_monoid.specs.Fresh.{IsFresh};
ghost use Rattle.bulk_ops.specs.Costs.{IsDeepEnough, step_cost};

use crate::finding::entries_at_counted;
use crate::map::Map;
use aug_monoid::{NoMemory, Second, Steps};
use sorted_lists::last_of_each_key_counted;
use std::alloc::Global;
use std::sync::ledger::{Blank, Ledger};
use tree_make::tree_of_counted;
use tree_shape::Shape;

impl<M: Shape> Map<M> {
    /// `build_alone` with its steps counted, without the comparisons of its sort. For n pairs they are at most `3 * n`.
    pub fn build_counted<C: Ledger>(
        alloc: Global,
        pairs: &[(M::Key, M::Val)],
        steps: &mut Steps<C>,
    ) -> Result<Map<M>, NoMemory>
        ensures entries { IfOk result (λ map. map.entries ≡ build M.Key.cmp pairs.now) }
        ensures cost { steps.new ≤ steps.old + 3 * length pairs.now }
    {
        let entries = last_of_each_key_counted(alloc, pairs, steps)?;
        Map::from_tree(tree_of_counted(alloc, entries, steps))
    }

    /// `multi_put_alone` with its steps counted, without the comparisons of its sort. For k pairs and a map of n entries, of which the
    /// lesser number is m, they are at most `3 * k + m * (l + 1) * (128 * (l + 2) * (B + 2) + 2 * M::Leaf::FIND)` for each l with
    /// `7^l * (n + k + 2) < 8^l`.
    pub fn multi_put_counted<C: Ledger>(
        &self,
        alloc: Global,
        pairs: &[(M::Key, M::Val)],
        steps: &mut Steps<C>,
    ) -> Result<Map<M>, NoMemory>
        ensures entries { IfOk result (λ map. map.entries ≡ after M.Key.cmp self.now.entries (puts pairs.now)) }
        ensures cost { IfOk result (λ _. (levels : ℕ) → IsDeepEnough levels (length self.now.entries + length pairs.now + 2) → steps.new ≤ steps.old + (3 * length pairs.now + min (length self.now.entries) (length pairs.now) * (levels + 1) * step_cost M.BLOCK M.Leaf.FIND levels)) }
    {
        let _size = self.size(); // for the proof alone: keys rise
        let newer = Map::build_counted(alloc, pairs, steps)?;
        self.union_counted(alloc, &newer, &Second, steps)
    }

    /// `multi_del_alone` with its steps counted, without the comparisons of its sort. For k keys and a map of height h they are at most
    /// those of `multi_put_counted`, and `k * (h + M::Leaf::FIND)` to look the keys up.
    pub fn multi_del_counted<C: Ledger>(
        &self,
        alloc: Global,
        keys: &[M::Key],
        steps: &mut Steps<C>,
    ) -> Result<Map<M>, NoMemory>
        ensures entries { IfOk result (λ map. map.entries ≡ after M.Key.cmp self.now.entries (dels keys.now)) }
        ensures cost { IfOk result (λ _. (levels : ℕ) → IsDeepEnough levels (length self.now.entries + length keys.now + 2) → steps.new ≤ steps.old + (length keys.now * (self.now.height + M.Leaf.FIND) + 3 * length keys.now + min (length self.now.entries) (length keys.now) * (levels + 1) * step_cost M.BLOCK M.Leaf.FIND levels)) }
    {
        let _size = self.size(); // for the proof alone: keys rise
        let found = entries_at_counted(alloc, &self.tree, keys, steps)?;
        let gone = Map::build_counted(alloc, &found, steps)?;
        self.difference_counted(alloc, &gone, steps)
    }
}

/// `build_counted` with a counter of its own.
pub(crate) fn build_uncounted<M: Shape, C: Ledger>(
    alloc: Global,
    pairs: &[(M::Key, M::Val)],
    blank: Blank,
) -> Result<Map<M>, NoMemory>
    requires { IsFresh C.name C.parts blank }
    ensures { IfOk result (λ map. map.entries ≡ build M.Key.cmp pairs.now) }
{
    let mut steps = Steps::<C>::start(blank);
    Map::build_counted(alloc, pairs, &mut steps)
}

/// `multi_put_counted` with a counter of its own.
pub(crate) fn multi_put_uncounted<M: Shape, C: Ledger>(
    alloc: Global,
    map: &Map<M>,
    pairs: &[(M::Key, M::Val)],
    blank: Blank,
) -> Result<Map<M>, NoMemory>
    requires { IsFresh C.name C.parts blank }
    ensures { IfOk result (λ put. put.entries ≡ after M.Key.cmp map.now.entries (puts pairs.now)) }
{
    let mut steps = Steps::<C>::start(blank);
    map.multi_put_counted(alloc, pairs, &mut steps)
}

/// `multi_del_counted` with a counter of its own.
pub(crate) fn multi_del_uncounted<M: Shape, C: Ledger>(
    alloc: Global,
    map: &Map<M>,
    keys: &[M::Key],
    blank: Blank,
) -> Result<Map<M>, NoMemory>
    requires { IsFresh C.name C.parts blank }
    ensures { IfOk result (λ left. left.entries ≡ after M.Key.cmp map.now.entries (dels keys.now)) }
{
    let mut steps = Steps::<C>::start(blank);
    map.multi_del_counted(alloc, keys, &mut steps)
}
