//! A node with another side.
ghost use Rattle.std.specs.Prelude.{◌≡◌, ◌+◌, ◌*◌, ◌≤◌, ◌∷◌, ◌++◌, IfOk};
ghost use Rattle.map_model.specs.Balance.{weight};
ghost use Rattle.map_model.specs.Entries.{AllAbove, AllBelow};
ghost use Rattle.tree_shape.specs.Shape.{link_cost};

use aug_monoid::{NoMemory, Steps, share_entry};
use std::alloc::Global;
use std::sync::ledger::Ledger;
use tree_join::{another_owner, join_owned};
use tree_shape::{Shape, Tree};

/// Other owners of a node's entry and of one of its sides.
fn shared_parts<M: Shape>(
    alloc: Global,
    key: &M::Key,
    val: &M::Val,
    side: &Tree<M>,
) -> Result<(M::Key, M::Val, Tree<M>), NoMemory>
    ensures key { IfOk result (λ parts. parts.0 ≡ key.now) }
    ensures val { IfOk result (λ parts. parts.1 ≡ val.now) }
    ensures side { IfOk result (λ parts. parts.2.entries ≡ side.now.entries) }
{
    let side = another_owner(alloc, side)?;
    let (key, val) = share_entry(alloc, key, val)?;
    Ok((key, val, side))
}

/// The join of a new left side with a node's entry and its right side.
pub(crate) fn with_left_side<M: Shape, C: Ledger>(
    alloc: Global,
    left: Tree<M>,
    key: &M::Key,
    val: &M::Val,
    right: &Tree<M>,
    steps: &mut Steps<C>,
) -> Result<Tree<M>, NoMemory>
    requires below { AllBelow M.Key.cmp left.entries key.now }
    requires above { AllAbove M.Key.cmp right.now.entries key.now }
    ensures entries { IfOk result (λ tree. tree.entries ≡ left.entries ++ (key.now, val.now) ∷ right.now.entries) }
    ensures cost { weight left.entries ≤ 3 * weight right.now.entries + 3 → weight right.now.entries ≤ 3 * weight left.entries + 3 → steps.new ≤ steps.old + 7 * link_cost M.BLOCK }
{
    let (key, val, right) = shared_parts(alloc, key, val, right)?;
    join_owned(alloc, left, key, val, right, steps)
}

/// The join of a node's left side and its entry with a new right side.
pub(crate) fn with_right_side<M: Shape, C: Ledger>(
    alloc: Global,
    left: &Tree<M>,
    key: &M::Key,
    val: &M::Val,
    right: Tree<M>,
    steps: &mut Steps<C>,
) -> Result<Tree<M>, NoMemory>
    requires below { AllBelow M.Key.cmp left.now.entries key.now }
    requires above { AllAbove M.Key.cmp right.entries key.now }
    ensures entries { IfOk result (λ tree. tree.entries ≡ left.now.entries ++ (key.now, val.now) ∷ right.entries) }
    ensures cost { weight left.now.entries ≤ 3 * weight right.entries + 3 → weight right.entries ≤ 3 * weight left.now.entries + 3 → steps.new ≤ steps.old + 7 * link_cost M.BLOCK }
{
    let (key, val, left) = shared_parts(alloc, key, val, left)?;
    join_owned(alloc, left, key, val, right, steps)
}
