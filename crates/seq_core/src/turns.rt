//! What a join does on its way up: a node over a far side and a near side that came back from below.
ghost use Rattle.std.specs.Prelude.{◌≡◌, ◌+◌, ◌*◌, ◌<◌, ◌≤◌, IfOk, length};
ghost use Rattle.balance.specs.Turns.{IsRepairable, SingleBalances};
ghost use Rattle.map_model.specs.Balance.{IsBalanced, weight};
ghost use Rattle.seq_core.specs.Sides.{beside};

use crate::fold::Fold;
use crate::sides::{Side, Sides, are_small, link_beside, sides_of, weight_of};
use crate::tree::SeqTree;
use crate::width::BlockSize;
use aug_monoid::{NoMemory, Share};
use balance::{Turn, balanced, repair};
use std::alloc::Global;

/// The sequence turned so that the near side's inner child goes to the far side.
fn turn_once<F: Fold, S: BlockSize>(
    alloc: Global,
    side: Side,
    outer: &SeqTree<F, S>,
    item: F::Item,
    near: Sides<'_, F, S>,
) -> Result<SeqTree<F, S>, NoMemory>
    requires { SingleBalances (weight outer.now.items) (weight near.far.now.items) (weight near.near.now.items) }
    ensures { IfOk result (λ tree. tree.items ≡ beside side outer.now.items item (beside side near.entry.far.now.items near.entry.item.now near.entry.near.now.items)) }
{
    let front = link_beside(alloc, side, outer, item, near.far)?;
    let middle = near.item.share(alloc)?;
    link_beside(alloc, side, &front, middle, near.near)
}

/// The sequence turned so that the two children of the near side's inner child part: one goes to the far side.
fn turn_twice<F: Fold, S: BlockSize>(
    alloc: Global,
    side: Side,
    outer: &SeqTree<F, S>,
    item: F::Item,
    near: Sides<'_, F, S>,
) -> Result<SeqTree<F, S>, NoMemory>
    requires large { 4 * S.SIZE + 2 ≤ weight outer.now.items + weight near.far.now.items + weight near.near.now.items }
    requires repairable { IsRepairable (weight outer.now.items) (weight near.far.now.items) (weight near.near.now.items) }
    requires unbalanced { ¬ (IsBalanced (weight outer.now.items) (weight near.far.now.items + weight near.near.now.items)) }
    requires not_single { ¬ (SingleBalances (weight outer.now.items) (weight near.far.now.items) (weight near.near.now.items)) }
    ensures { IfOk result (λ tree. tree.items ≡ beside side outer.now.items item (beside side near.entry.far.now.items near.entry.item.now near.entry.near.now.items)) }
{
    let inner = sides_of(near.far, side);
    let front = link_beside(alloc, side, outer, item, inner.far)?;
    let middle = near.item.share(alloc)?;
    let back = link_beside(alloc, side, inner.near, middle, near.near)?;
    let middle = inner.item.share(alloc)?;
    link_beside(alloc, side, &front, middle, &back)
}

/// The sequence of a far side, an item, and a near side that came back from a join.
pub(crate) fn repair_beside<F: Fold, S: BlockSize>(
    alloc: Global,
    side: Side,
    outer: &SeqTree<F, S>,
    item: F::Item,
    near: &SeqTree<F, S>,
) -> Result<SeqTree<F, S>, NoMemory>
    requires not_too_light { 3 * (weight outer.now.items + weight near.now.items) < 16 * weight outer.now.items }
    requires not_too_heavy { weight outer.now.items ≤ 3 * weight near.now.items }
    ensures { IfOk result (λ tree. tree.items ≡ beside side outer.now.items item near.now.items) }
{
    if are_small(outer, near) || balanced(weight_of(outer), weight_of(near)) {
        return link_beside(alloc, side, outer, item, near);
    }
    let sides = sides_of(near, side);
    match repair(
        weight_of(outer),
        weight_of(sides.far),
        weight_of(sides.near),
    ) {
        Turn::None => link_beside(alloc, side, outer, item, near),
        Turn::Single => turn_once(alloc, side, outer, item, sides),
        Turn::Double => turn_twice(alloc, side, outer, item, sides),
    }
}
