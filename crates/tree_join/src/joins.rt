//! Join: two trees and an entry between them.
ghost use Rattle.std.specs.Prelude.{◌≡◌, ℕ, ◌+◌, ◌*◌, ◌<◌, ◌≤◌, ◌∷◌, ◌++◌, IfOk};
ghost use Rattle.tree_join.specs.Sides.{beside};
ghost use Rattle.map_model.specs.Balance.{IsWithinLevels, weight};
ghost use Rattle.map_model.specs.Entries.{AllAbove, AllBelow, IsIncreasing};
ghost use Rattle.tree_shape.specs.Shape.{link_cost};

use crate::owners::Part;
use crate::sides::{Side, link_beside, sides_of};
use crate::sizes::{are_balanced, are_small, weight_of};
use crate::turns::repair_beside;
use aug_monoid::{NoMemory, Steps, share_entry};
use balance::link_here;
use std::alloc::Global;
use std::sync::ledger::Ledger;
use tree_shape::{Shape, Tree};

/// Joins a heavy tree with a light one on a given side of it.
fn join_beside<M: Shape, C: Ledger>(
    alloc: Global,
    side: Side,
    heavy: Part<'_, M>,
    key: M::Key,
    val: M::Val,
    light: Part<'_, M>,
    steps: &mut Steps<C>,
) -> Result<Tree<M>, NoMemory>
    requires increasing { IsIncreasing M.Key.cmp (beside side heavy.tree.now.entries (key, val) light.tree.now.entries) }
    requires not_lighter { weight light.tree.now.entries ≤ 3 * weight heavy.tree.now.entries }
    ensures entries { IfOk result (λ tree. tree.entries ≡ beside side heavy.entry.tree.now.entries (key, val) light.entry.tree.now.entries) }
    ensures linked { weight heavy.entry.tree.now.entries ≤ 3 * weight light.entry.tree.now.entries → steps.new ≤ steps.old + link_cost M.BLOCK }
    ensures one_level { weight heavy.entry.tree.now.entries ≤ 4 * weight light.entry.tree.now.entries → steps.new ≤ steps.old + 4 * link_cost M.BLOCK }
    ensures two_levels { 3 * weight heavy.entry.tree.now.entries ≤ 16 * weight light.entry.tree.now.entries + 3 → steps.new ≤ steps.old + 7 * link_cost M.BLOCK }
    ensures levels { (n : ℕ) → IsWithinLevels M.BLOCK n (weight heavy.entry.tree.now.entries) (weight light.entry.tree.now.entries) → steps.new ≤ steps.old + (3 * n + 1) * link_cost M.BLOCK }
{
    if are_small(heavy.tree, light.tree)
        || link_here(weight_of(heavy.tree), weight_of(light.tree))
    {
        return link_beside(alloc, side, heavy.tree, key, val, light.tree, steps);
    }
    let sides = sides_of(heavy.tree, side);
    let near = join_beside(
        alloc,
        side,
        Part { tree: sides.near },
        key,
        val,
        light,
        steps,
    )?;
    repair_beside(alloc, side, sides.far, sides.key, sides.val, &near, steps)
}

/// The map of all entries of a left map, an entry whose key is greater than all theirs, and a right map whose keys are
/// greater still. Its time is linear in the difference of the heights; sides that are nearly balanced take at most
/// `7 * (4 * M::BLOCK + 4)` steps, and sides that are within n levels at most `(3 * n + 1) * (4 * M::BLOCK + 4)`.
pub fn join<M: Shape, C: Ledger>(
    alloc: Global,
    left: &Tree<M>,
    key: M::Key,
    val: M::Val,
    right: &Tree<M>,
    steps: &mut Steps<C>,
) -> Result<Tree<M>, NoMemory>
    requires below { AllBelow M.Key.cmp left.now.entries key }
    requires above { AllAbove M.Key.cmp right.now.entries key }
    ensures entries { IfOk result (λ tree. tree.entries ≡ left.now.entries ++ (key, val) ∷ right.now.entries) }
    ensures cost { weight left.now.entries ≤ 3 * weight right.now.entries + 3 → weight right.now.entries ≤ 3 * weight left.now.entries + 3 → steps.new ≤ steps.old + 7 * link_cost M.BLOCK }
    ensures levels { (n : ℕ) → IsWithinLevels M.BLOCK n (weight left.now.entries) (weight right.now.entries) → IsWithinLevels M.BLOCK n (weight right.now.entries) (weight left.now.entries) → steps.new ≤ steps.old + (3 * n + 1) * link_cost M.BLOCK }
{
    if left.size() < right.size() {
        let (heavy, light) = (Part { tree: right }, Part { tree: left });
        join_beside(alloc, Side::Left, heavy, key, val, light, steps)
    } else {
        let (heavy, light) = (Part { tree: left }, Part { tree: right });
        join_beside(alloc, Side::Right, heavy, key, val, light, steps)
    }
}

/// The same as `join`, of an entry that gets another owner, at the same cost.
pub fn join_lent<M: Shape, C: Ledger>(
    alloc: Global,
    left: &Tree<M>,
    key: &M::Key,
    val: &M::Val,
    right: &Tree<M>,
    steps: &mut Steps<C>,
) -> Result<Tree<M>, NoMemory>
    requires below { AllBelow M.Key.cmp left.now.entries key.now }
    requires above { AllAbove M.Key.cmp right.now.entries key.now }
    ensures entries { IfOk result (λ tree. tree.entries ≡ left.now.entries ++ (key.now, val.now) ∷ right.now.entries) }
    ensures cost { weight left.now.entries ≤ 3 * weight right.now.entries + 3 → weight right.now.entries ≤ 3 * weight left.now.entries + 3 → steps.new ≤ steps.old + 7 * link_cost M.BLOCK }
    ensures levels { (n : ℕ) → IsWithinLevels M.BLOCK n (weight left.now.entries) (weight right.now.entries) → IsWithinLevels M.BLOCK n (weight right.now.entries) (weight left.now.entries) → steps.new ≤ steps.old + (3 * n + 1) * link_cost M.BLOCK }
{
    let (key, val) = share_entry(alloc, key, val)?;
    join(alloc, left, key, val, right, steps)
}

/// The same as `join`, of trees that are given up. Where they are balanced, as mostly after a change of one entry in one of
/// them, they become the sides of one node, and get no further owner. Of few entries, those of blocks with one owner move. Else it
/// takes what `join` takes.
pub fn join_owned<M: Shape, C: Ledger>(
    alloc: Global,
    left: Tree<M>,
    key: M::Key,
    val: M::Val,
    right: Tree<M>,
    steps: &mut Steps<C>,
) -> Result<Tree<M>, NoMemory>
    requires below { AllBelow M.Key.cmp left.entries key }
    requires above { AllAbove M.Key.cmp right.entries key }
    ensures entries { IfOk result (λ tree. tree.entries ≡ left.entries ++ (key, val) ∷ right.entries) }
    ensures cost { weight left.entries ≤ 3 * weight right.entries + 3 → weight right.entries ≤ 3 * weight left.entries + 3 → steps.new ≤ steps.old + 7 * link_cost M.BLOCK }
    ensures levels { (n : ℕ) → IsWithinLevels M.BLOCK n (weight left.entries) (weight right.entries) → IsWithinLevels M.BLOCK n (weight right.entries) (weight left.entries) → steps.new ≤ steps.old + (3 * n + 1) * link_cost M.BLOCK }
{
    let _sizes = (left.size(), right.size()); // for the proof alone: keys rise, and sizes fit
    if are_balanced(&left, &right) {
        Tree::link_owned(alloc, left, key, val, right, steps)
    } else if are_small(&left, &right) {
        Tree::link_small(alloc, left, key, val, right, steps)
    } else {
        join(alloc, &left, key, val, &right, steps)
    }
}
