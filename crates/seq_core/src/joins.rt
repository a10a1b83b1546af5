//! Join: two sequences and an item between them.
ghost use Rattle.std.specs.Prelude.{◌≡◌, ◌+◌, ◌*◌, ◌<◌, ◌≤◌, ◌∷◌, ◌++◌, IfOk};
ghost use Rattle.map_model.specs.Balance.{weight};
ghost use Rattle.seq_core.specs.Sides.{beside};

use crate::fold::Fold;
use crate::sides::{Side, are_small, link_beside, sides_of, weight_of};
use crate::tree::{Part, SeqTree};
use crate::turns::repair_beside;
use crate::width::BlockSize;
use aug_monoid::{NoMemory, Share};
use balance::link_here;
use std::alloc::Global;

/// Joins a heavy sequence with a light one on a given side of it.
fn join_beside<F: Fold, S: BlockSize>(
    alloc: Global,
    side: Side,
    heavy: Part<'_, F, S>,
    item: F::Item,
    light: &SeqTree<F, S>,
) -> Result<SeqTree<F, S>, NoMemory>
    requires { weight light.now.items ≤ 3 * weight heavy.tree.now.items }
    ensures { IfOk result (λ tree. tree.items ≡ beside side heavy.entry.tree.now.items item light.now.items) }
{
    if are_small(heavy.tree, light) || link_here(weight_of(heavy.tree), weight_of(light)) {
        return link_beside(alloc, side, heavy.tree, item, light);
    }
    let sides = sides_of(heavy.tree, side);
    let near = join_beside(alloc, side, Part { tree: sides.near }, item, light)?;
    let middle = sides.item.share(alloc)?;
    repair_beside(alloc, side, sides.far, middle, &near)
}

/// The items of a sequence, an item, and those of another sequence. Its time is linear in the difference of the heights.
pub fn join<F: Fold, S: BlockSize>(
    alloc: Global,
    left: &SeqTree<F, S>,
    item: F::Item,
    right: &SeqTree<F, S>,
) -> Result<SeqTree<F, S>, NoMemory>
    ensures { IfOk result (λ tree. tree.items ≡ left.now.items ++ item ∷ right.now.items) }
{
    if left.size() < right.size() {
        join_beside(alloc, Side::Left, Part { tree: right }, item, left)
    } else {
        join_beside(alloc, Side::Right, Part { tree: left }, item, right)
    }
}
