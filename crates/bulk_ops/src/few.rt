//! A tree combined with few entries, which are a slice.
ghost use Rattle.std.specs.Prelude.{ℕ, ◌≡◌, ◌+◌, ◌*◌, ◌≤◌, ◌++◌, [], Some, length, IfOk, if◌then◌else◌};
ghost use Rattle.std.specs.List.{cons_option};
ghost use Rattle.std.specs.Option.{option_map};
ghost use Rattle.map_model.specs.Entries.{IsIncreasing};
ghost use Rattle.map_model.specs.Balance.{IsAtMostLevels, weight};
ghost use Rattle.tree_make.specs.Costs.{join_cost};
ghost use Rattle.bulk_ops.specs.Combination.{entry_at};
ghost use Rattle.bulk_ops.specs.Costs.{step_cost};

use crate::combination::Combination;
use crate::combining::keep_entry;
use crate::one::combine_one;
use aug_monoid::{NoMemory, Steps};
use entry_lists::cut_slice;
use std::alloc::Global;
use std::sync::ledger::Ledger;
use tree_join::{Part, another_owner};
use tree_make::{entries_of, join_around_counted, tree_of_counted};
use tree_shape::{Look, Shape, Tree};

/// A map with at most the entries of this many least blocks is a slice beside a greater one.
pub(crate) const FEW_BLOCKS: u64 = 4;

/// The tree itself, or the empty one.
pub(crate) fn kept_or_none<M: Shape>(tree: Tree<M>, keeps: bool) -> Tree<M>
    ensures { result.entries ≡ if keeps then tree.entries else [] }
{
    if keeps { tree } else { Tree::empty() }
}

/// A tree and a slice combined as two lists.
pub(crate) fn combine_lists<M: Shape, W: Combination<M::Key, M::Val>, C: Ledger>(
    alloc: Global,
    how: &W,
    tree: &Tree<M>,
    few: &[(M::Key, M::Val)],
    steps: &mut Steps<C>,
) -> Result<Tree<M>, NoMemory>
    requires increasing { IsIncreasing M.Key.cmp few.now }
    ensures value { IfOk result (λ out. out.entries ≡ W.combined how.now tree.now.entries few.now) }
    ensures cost { steps.new ≤ steps.old + 3 * (length tree.now.entries + length few.now) }
{
    let _size = tree.size(); // for the proof alone: keys rise
    let entries = entries_of(alloc, tree)?;
    let both = how.combine_slices(alloc, &entries, few, steps)?;
    tree_of_counted(alloc, both, steps)
}

/// A tree combined with no entries.
fn combine_none<M: Shape, W: Combination<M::Key, M::Val>>(
    alloc: Global,
    how: &W,
    tree: &Tree<M>,
) -> Result<Tree<M>, NoMemory>
    ensures { IfOk result (λ out. out.entries ≡ W.combined how.now tree.now.entries []) }
{
    let _size = tree.size(); // for the proof alone: keys rise
    let whole = another_owner(alloc, tree)?;
    Ok(kept_or_none(whole, how.keeps_first()))
}

/// A tree combined with few entries. It goes down only where some of them are, cuts the slice at each node's key, and shares the
/// other sides.
pub(crate) fn combine_few<M: Shape, W: Combination<M::Key, M::Val>, C: Ledger>(
    alloc: Global,
    how: &W,
    part: Part<'_, M>,
    few: &[(M::Key, M::Val)],
    steps: &mut Steps<C>,
) -> Result<Tree<M>, NoMemory>
    requires increasing { IsIncreasing M.Key.cmp few.now }
    requires short { length few.now ≤ 4 * M.BLOCK }
    ensures value { IfOk result (λ out. out.entries ≡ W.combined how.now part.entry.tree.now.entries few.now) }
    ensures cost { (n : ℕ) → IsAtMostLevels M.BLOCK n (weight part.entry.tree.now.entries + weight few.now) → steps.new ≤ steps.old + length few.now * ((part.entry.tree.now.height + 1) * step_cost M.BLOCK M.Leaf.FIND n) }
{
    let Some((entry, others)) = few.split_first() else {
        return combine_none(alloc, how, part.tree);
    };
    if others.is_empty() {
        return combine_one(alloc, how, part.tree, entry, steps);
    }
    match part.tree.look() {
        Look::Node {
            left,
            key,
            val,
            right,
        } => {
            let parts = cut_slice(few, key, steps);
            let front = combine_few(alloc, how, Part { tree: left }, parts.below, steps)?;
            let back = combine_few(alloc, how, Part { tree: right }, parts.above, steps)?;
            let kept = keep_entry(alloc, how, key, Some(val), parts.found)?;
            join_around_counted(alloc, front, kept, back, steps)
        }
        Look::Empty => combine_lists(alloc, how, part.tree, few, steps),
        Look::Block { leaf: _ } => combine_lists(alloc, how, part.tree, few, steps),
    }
}
