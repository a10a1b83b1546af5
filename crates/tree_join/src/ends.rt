//! The first entry of a map, and a join without an entry between.
ghost use Rattle.std.specs.Prelude.{◌≡◌, ℕ, ◌+◌, ◌*◌, ◌<◌, ◌≤◌, ◌∷◌, ◌++◌, IfOk, length};
ghost use Rattle.map_model.specs.Balance.{IsAtMostLevels, IsBalanced, weight};
ghost use Rattle.map_model.specs.Entries.{IsBefore, IsIncreasing};
ghost use Rattle.tree_shape.specs.Shape.{link_cost};

use crate::joins::{join, join_lent};
use crate::owners::{Part, another_owner};
use aug_monoid::{NoMemory, Share, Steps, share_entry};
use std::alloc::Global;
use std::sync::ledger::Ledger;
use tree_shape::{Look, Shape, Tree, cut_around};

/// The first entry of a map, and the others.
#[derive(Drop)]
struct Taken<M: Shape> {
    key: M::Key,
    val: M::Val,
    rest: Tree<M>,
}

/// The first entry of a block, and the others.
fn first_of_block<M: Shape, C: Ledger>(
    alloc: Global,
    leaf: &M::Leaf,
    steps: &mut Steps<C>,
) -> Result<Taken<M>, NoMemory>
    requires increasing { IsIncreasing M.Key.cmp (M.Leaf.entries leaf.now) }
    requires some { 0 < length (M.Leaf.entries leaf.now) }
    requires short { length (M.Leaf.entries leaf.now) ≤ 2 * M.BLOCK }
    ensures entries { IfOk result (λ taken. M.Leaf.entries leaf.now ≡ (taken.key, taken.val) ∷ taken.rest.entries) }
    ensures cost { steps.new ≤ steps.old + (2 * M.BLOCK + 1) }
{
    let first = cut_around(alloc, leaf, 0)?;
    let rest = Tree::from_leaf(alloc, first.back, steps)?;
    Ok(Taken {
        key: first.key,
        val: first.val,
        rest,
    })
}

/// What a node leaves of which the first entry was taken on the left.
fn first_of_node<M: Shape, C: Ledger>(
    alloc: Global,
    taken: Taken<M>,
    key: &M::Key,
    val: &M::Val,
    right: &Tree<M>,
    steps: &mut Steps<C>,
) -> Result<Taken<M>, NoMemory>
    requires increasing { IsIncreasing M.Key.cmp (((taken.key, taken.val) ∷ taken.rest.entries) ++ (key.now, val.now) ∷ right.now.entries) }
    requires balanced { IsBalanced (weight taken.rest.entries + 1) (weight right.now.entries) }
    ensures entries { IfOk result (λ new. ((taken.key, taken.val) ∷ taken.rest.entries) ++ (key.now, val.now) ∷ right.now.entries ≡ (new.key, new.val) ∷ new.rest.entries) }
    ensures cost { steps.new ≤ steps.old + 7 * link_cost M.BLOCK }
{
    let joined = join_lent(alloc, &taken.rest, key, val, right, steps)?;
    Ok(Taken {
        key: taken.key,
        val: taken.val,
        rest: joined,
    })
}

/// An entry and a map above it.
fn entry_and_rest<M: Shape>(
    alloc: Global,
    key: &M::Key,
    val: &M::Val,
    right: &Tree<M>,
) -> Result<Taken<M>, NoMemory>
    ensures { IfOk result (λ taken. (key.now, val.now) ∷ right.now.entries ≡ (taken.key, taken.val) ∷ taken.rest.entries) }
{
    let rest = right.share(alloc)?;
    let (key, val) = share_entry(alloc, key, val)?;
    Ok(Taken { key, val, rest })
}

/// The first entry of a map that is not empty, and the others.
fn take_first<M: Shape, C: Ledger>(
    alloc: Global,
    part: Part<'_, M>,
    steps: &mut Steps<C>,
) -> Result<Taken<M>, NoMemory>
    requires some { 0 < length part.tree.now.entries }
    ensures entries { IfOk result (λ taken. part.entry.tree.now.entries ≡ (taken.key, taken.val) ∷ taken.rest.entries) }
    ensures cost { steps.new ≤ steps.old + 64 * (part.entry.tree.now.height + 1) * (M.BLOCK + 2) }
{
    match part.tree.look() {
        Look::Empty => unreachable!(),
        Look::Block { leaf } => first_of_block(alloc, leaf, steps),
        Look::Node {
            left,
            key: node_key,
            val: node_val,
            right,
        } => {
            if left.size() == 0 {
                return entry_and_rest(alloc, node_key, node_val, right);
            }
            let taken = take_first(alloc, Part { tree: left }, steps)?;
            first_of_node(alloc, taken, node_key, node_val, right, steps)
        }
    }
}

/// The map of all entries of a left map and a right map whose keys are greater. Its time is linear in the heights: to take the
/// first entry of the right map takes `64 * (height + 1) * (M::BLOCK + 2)` steps at most, and the join of maps of n levels together
/// `(3 * n + 1) * (4 * M::BLOCK + 4)`.
pub fn join2<M: Shape, C: Ledger>(
    alloc: Global,
    left: &Tree<M>,
    right: &Tree<M>,
    steps: &mut Steps<C>,
) -> Result<Tree<M>, NoMemory>
    requires before { IsBefore M.Key.cmp left.now.entries right.now.entries }
    ensures entries { IfOk result (λ tree. tree.entries ≡ left.now.entries ++ right.now.entries) }
    ensures cost { IsBalanced (weight left.now.entries) (weight right.now.entries) → steps.new ≤ steps.old + (64 * (right.now.height + 1) * (M.BLOCK + 2) + 7 * link_cost M.BLOCK) }
    ensures levels { (n : ℕ) → IsAtMostLevels M.BLOCK n (weight left.now.entries + weight right.now.entries) → steps.new ≤ steps.old + (64 * (right.now.height + 1) * (M.BLOCK + 2) + (3 * n + 1) * link_cost M.BLOCK) }
{
    if right.size() == 0 {
        return another_owner(alloc, left);
    }
    let first = take_first(alloc, Part { tree: right }, steps)?;
    join(alloc, left, first.key, first.val, &first.rest, steps)
}
