//! What a join does on its way up: a node over a far side and a near side that came back from below.
ghost use Rattle.std.specs.Prelude.{◌≡◌, ◌+◌, ◌*◌, ◌<◌, ◌≤◌, IfOk, length};
ghost use Rattle.balance.specs.Turns.{IsRepairable, SingleBalances};
ghost use Rattle.tree_join.specs.Sides.{beside};
ghost use Rattle.map_model.specs.Balance.{IsBalanced, weight};
ghost use Rattle.map_model.specs.Entries.{IsIncreasing};
ghost use Rattle.tree_shape.specs.Shape.{link_cost};

use crate::sides::{Side, Sides, link_lent, sides_of};
use crate::sizes::{are_small, weight_of};
use aug_monoid::{NoMemory, Steps};
use balance::{Turn, balanced, repair};
use std::alloc::Global;
use std::sync::ledger::Ledger;
use tree_shape::{Shape, Tree};

/// The tree turned so that the near side's inner child goes to the far side.
fn turn_once<M: Shape, C: Ledger>(
    alloc: Global,
    side: Side,
    outer: &Tree<M>,
    key: &M::Key,
    val: &M::Val,
    near: Sides<'_, M>,
    steps: &mut Steps<C>,
) -> Result<Tree<M>, NoMemory>
    requires increasing { IsIncreasing M.Key.cmp (beside side outer.now.entries (key.now, val.now) (beside side near.far.now.entries (near.key.now, near.val.now) near.near.now.entries)) }
    requires balances { SingleBalances (weight outer.now.entries) (weight near.far.now.entries) (weight near.near.now.entries) }
    ensures entries { IfOk result (λ tree. tree.entries ≡ beside side outer.now.entries (key.now, val.now) (beside side near.entry.far.now.entries (near.entry.key.now, near.entry.val.now) near.entry.near.now.entries)) }
    ensures cost { steps.new ≤ steps.old + 2 * link_cost M.BLOCK }
{
    let front = link_lent(alloc, side, outer, key, val, near.far, steps)?;
    link_lent(alloc, side, &front, near.key, near.val, near.near, steps)
}

/// The tree turned so that the two children of the near side's inner child part: one goes to the far side.
fn turn_twice<M: Shape, C: Ledger>(
    alloc: Global,
    side: Side,
    outer: &Tree<M>,
    key: &M::Key,
    val: &M::Val,
    near: Sides<'_, M>,
    steps: &mut Steps<C>,
) -> Result<Tree<M>, NoMemory>
    requires increasing { IsIncreasing M.Key.cmp (beside side outer.now.entries (key.now, val.now) (beside side near.far.now.entries (near.key.now, near.val.now) near.near.now.entries)) }
    requires large { 4 * M.BLOCK + 2 ≤ weight outer.now.entries + weight near.far.now.entries + weight near.near.now.entries }
    requires repairable { IsRepairable (weight outer.now.entries) (weight near.far.now.entries) (weight near.near.now.entries) }
    requires unbalanced { ¬ (IsBalanced (weight outer.now.entries) (weight near.far.now.entries + weight near.near.now.entries)) }
    requires not_single { ¬ (SingleBalances (weight outer.now.entries) (weight near.far.now.entries) (weight near.near.now.entries)) }
    ensures entries { IfOk result (λ tree. tree.entries ≡ beside side outer.now.entries (key.now, val.now) (beside side near.entry.far.now.entries (near.entry.key.now, near.entry.val.now) near.entry.near.now.entries)) }
    ensures cost { steps.new ≤ steps.old + 3 * link_cost M.BLOCK }
{
    let inner = sides_of(near.far, side);
    let front = link_lent(alloc, side, outer, key, val, inner.far, steps)?;
    let back = link_lent(
        alloc, side, inner.near, near.key, near.val, near.near, steps,
    )?;
    link_lent(alloc, side, &front, inner.key, inner.val, &back, steps)
}

/// The tree of a far side, an entry, and a near side that came back from a join.
pub(crate) fn repair_beside<M: Shape, C: Ledger>(
    alloc: Global,
    side: Side,
    outer: &Tree<M>,
    key: &M::Key,
    val: &M::Val,
    near: &Tree<M>,
    steps: &mut Steps<C>,
) -> Result<Tree<M>, NoMemory>
    requires increasing { IsIncreasing M.Key.cmp (beside side outer.now.entries (key.now, val.now) near.now.entries) }
    requires not_too_light { 3 * (weight outer.now.entries + weight near.now.entries) < 16 * weight outer.now.entries }
    requires not_too_heavy { weight outer.now.entries ≤ 3 * weight near.now.entries }
    ensures entries { IfOk result (λ tree. tree.entries ≡ beside side outer.now.entries (key.now, val.now) near.now.entries) }
    ensures cost { steps.new ≤ steps.old + 3 * link_cost M.BLOCK }
{
    if are_small(outer, near) || balanced(weight_of(outer), weight_of(near)) {
        return link_lent(alloc, side, outer, key, val, near, steps);
    }
    let sides = sides_of(near, side);
    match repair(
        weight_of(outer),
        weight_of(sides.far),
        weight_of(sides.near),
    ) {
        Turn::None => link_lent(alloc, side, outer, key, val, near, steps),
        Turn::Single => turn_once(alloc, side, outer, key, val, sides, steps),
        Turn::Double => turn_twice(alloc, side, outer, key, val, sides, steps),
    }
}
