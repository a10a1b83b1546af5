//! Trees of two trees, and of an entry between them.
ghost use Rattle.std.specs.Prelude.{◌≡◌, ℕ, ◌+◌, ◌≤◌, ◌∷◌, ◌++◌, IfOk};
ghost use Rattle.std.specs.List.{cons_option};
ghost use Rattle.tree_make.specs.Costs.{join_cost};
ghost use Rattle.map_model.specs.Balance.{IsAtMostLevels, weight};
ghost use Rattle.map_model.specs.Entries.{IsIncreasing};
ghost use Rattle.aug_monoid.specs.Fresh.{IsFresh};

use aug_monoid::{NoMemory, Steps};
use std::alloc::Global;
use std::marker::Brand;
use std::sync::ledger::{Blank, Ledger};
use tree_join::{join_owned, join2};
use tree_shape::{Shape, Tree};

/// The tree of two trees and an entry between them. O(d) for trees whose heights differ by d.
pub fn joined<M: Shape>(
    alloc: Global,
    left: Tree<M>,
    middle: (M::Key, M::Val),
    right: Tree<M>,
) -> Result<Tree<M>, NoMemory>
    requires increasing { IsIncreasing M.Key.cmp (left.entries ++ middle ∷ right.entries) }
    ensures { IfOk result (λ tree. tree.entries ≡ left.entries ++ middle ∷ right.entries) }
{
    join_around::<M>(alloc, left, Some(middle), right)
}

/// The tree of two trees and the entry between them, where there is one. O(d) for trees whose heights differ by d with an entry,
/// and O(h) for trees of height h without.
pub fn join_around<M: Shape>(
    alloc: Global,
    left: Tree<M>,
    middle: Option<(M::Key, M::Val)>,
    right: Tree<M>,
) -> Result<Tree<M>, NoMemory>
    requires increasing { IsIncreasing M.Key.cmp (left.entries ++ cons_option middle right.entries) }
    ensures { IfOk result (λ tree. tree.entries ≡ left.entries ++ cons_option middle right.entries) }
{
    join_around_uncounted::<M, Brand>(alloc, left, middle, right, Blank::new(1))
}

fn join_around_uncounted<M: Shape, C: Ledger>(
    alloc: Global,
    left: Tree<M>,
    middle: Option<(M::Key, M::Val)>,
    right: Tree<M>,
    blank: Blank,
) -> Result<Tree<M>, NoMemory>
    requires increasing { IsIncreasing M.Key.cmp (left.entries ++ cons_option middle right.entries) }
    requires fresh { IsFresh C.name C.parts blank }
    ensures { IfOk result (λ tree. tree.entries ≡ left.entries ++ cons_option middle right.entries) }
{
    let mut steps = Steps::<C>::start(blank);
    join_around_counted(alloc, left, middle, right, &mut steps)
}

/// The same as `join_around`, with a counter of the caller's. Trees that together are at most n levels take at most
/// `64 * (n + 1) * (M::BLOCK + 2) + (3 * n + 1) * (4 * M::BLOCK + 4)` steps.
pub fn join_around_counted<M: Shape, C: Ledger>(
    alloc: Global,
    left: Tree<M>,
    middle: Option<(M::Key, M::Val)>,
    right: Tree<M>,
    steps: &mut Steps<C>,
) -> Result<Tree<M>, NoMemory>
    requires increasing { IsIncreasing M.Key.cmp (left.entries ++ cons_option middle right.entries) }
    ensures entries { IfOk result (λ tree. tree.entries ≡ left.entries ++ cons_option middle right.entries) }
    ensures cost { (n : ℕ) → IsAtMostLevels M.BLOCK n (weight left.entries + weight right.entries) → steps.new ≤ steps.old + join_cost M.BLOCK n }
{
    match middle {
        Some(middle) => join_with(alloc, left, middle, right, steps),
        None => join_without(alloc, &left, &right, steps),
    }
}

/// The tree of two trees and an entry between them.
fn join_with<M: Shape, C: Ledger>(
    alloc: Global,
    left: Tree<M>,
    middle: (M::Key, M::Val),
    right: Tree<M>,
    steps: &mut Steps<C>,
) -> Result<Tree<M>, NoMemory>
    requires increasing { IsIncreasing M.Key.cmp (left.entries ++ middle ∷ right.entries) }
    ensures entries { IfOk result (λ tree. tree.entries ≡ left.entries ++ middle ∷ right.entries) }
    ensures cost { (n : ℕ) → IsAtMostLevels M.BLOCK n (weight left.entries + weight right.entries) → steps.new ≤ steps.old + join_cost M.BLOCK n }
{
    let (key, val) = middle;
    join_owned(alloc, left, key, val, right, steps)
}

/// The tree of two trees, the first before the second.
fn join_without<M: Shape, C: Ledger>(
    alloc: Global,
    left: &Tree<M>,
    right: &Tree<M>,
    steps: &mut Steps<C>,
) -> Result<Tree<M>, NoMemory>
    requires increasing { IsIncreasing M.Key.cmp (left.now.entries ++ right.now.entries) }
    ensures entries { IfOk result (λ tree. tree.entries ≡ left.now.entries ++ right.now.entries) }
    ensures cost { (n : ℕ) → IsAtMostLevels M.BLOCK n (weight left.now.entries + weight right.now.entries) → steps.new ≤ steps.old + join_cost M.BLOCK n }
{
    let _height = right.height(); // for the proof alone: a tree of n levels is no higher
    join2(alloc, left, right, steps)
}
