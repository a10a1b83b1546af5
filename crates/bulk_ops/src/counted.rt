//! The combination of two trees on one thread, in counted steps.
ghost use Rattle.std.specs.Prelude.{ℕ, ◌≡◌, ◌+◌, ◌*◌, ◌≤◌, length, min, IfOk};
ghost use Rattle.map_model.specs.Balance.{weight};
ghost use Rattle.bulk_ops.specs.Costs.{IsDeepEnough, step_cost};

use crate::combination::Combination;
use crate::combining::{Combining, shared_sides};
use aug_monoid::{NoMemory, Steps};
use fork_join::divide_alone;
use std::alloc::Global;
use std::sync::ledger::Ledger;
use tree_shape::{Shape, Tree};

/// What `how` makes of two trees, on one thread. A comparison of keys is a step, and a combination of augmented values. For trees of m
/// and n entries, m at most n, there are at most `m * (l + 1) * (128 * (l + 2) * (M::BLOCK + 2) + 2 * M::Leaf::FIND)` steps for each l
/// with `7^l * (m + n + 2) < 8^l`. `NoMemory` for want of memory alone.
pub fn combine_counted<M: Shape, W: Combination<M::Key, M::Val>, C: Ledger>(
    alloc: Global,
    how: &W,
    a: &Tree<M>,
    b: &Tree<M>,
    steps: &mut Steps<C>,
) -> Result<Tree<M>, NoMemory>
    ensures entries { IfOk result (λ tree. tree.entries ≡ W.combined how.now a.now.entries b.now.entries) }
    ensures cost { IfOk result (λ _. (levels : ℕ) → IsDeepEnough levels (weight a.now.entries + weight b.now.entries) → steps.new ≤ steps.old + min (length a.now.entries) (length b.now.entries) * (levels + 1) * step_cost M.BLOCK M.Leaf.FIND levels) }
{
    let sides = shared_sides(alloc, a, b)?;
    divide_alone(alloc, &Combining { how }, sides, steps)
}
