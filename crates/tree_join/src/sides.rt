//! The two sides of a node, by which of them is meant.
ghost use Rattle.std.specs.Prelude.{◌≡◌, ◌+◌, ◌*◌, ◌<◌, ◌≤◌, IfOk, length};
ghost use Rattle.tree_join.specs.Sides.{beside};
ghost use Rattle.map_model.specs.Balance.{IsBalanced, weight};
ghost use Rattle.map_model.specs.Entries.{IsIncreasing};
ghost use Rattle.tree_shape.specs.Shape.{link_cost};

use aug_monoid::{NoMemory, Steps, share_entry};
use std::alloc::Global;
use std::sync::ledger::Ledger;
use tree_shape::{Look, Shape, Tree};

/// A side of a node.
#[derive(Clone, Copy)]
pub(crate) enum Side {
    Left,
    Right,
}

/// What a node stands over: the tree on a given side, the one on the other side, and the entry between them.
#[derive(Drop)]
pub(crate) struct Sides<'a, M: Shape> {
    pub(crate) far: &'a Tree<M>,
    pub(crate) key: &'a M::Key,
    pub(crate) val: &'a M::Val,
    pub(crate) near: &'a Tree<M>,
}

/// What a node stands over, seen from a side.
pub(crate) fn sides_of<'a, M: Shape>(tree: &'a Tree<M>, side: Side) -> Sides<'a, M>
    requires { 2 * M.BLOCK < length tree.now.entries }
    ensures entries { tree.now.entries ≡ beside side result.far.now.entries (result.key.now, result.val.now) result.near.now.entries }
    ensures balanced { IsBalanced (weight result.far.now.entries) (weight result.near.now.entries) }
{
    let Look::Node {
        left,
        key,
        val,
        right,
    } = tree.look()
    else {
        unreachable!()
    };
    match side {
        Side::Left => Sides {
            far: right,
            key,
            val,
            near: left,
        },
        Side::Right => Sides {
            far: left,
            key,
            val,
            near: right,
        },
    }
}

/// The tree of two trees, one of them on a given side, with an entry between them.
pub(crate) fn link_beside<M: Shape, C: Ledger>(
    alloc: Global,
    side: Side,
    far: &Tree<M>,
    key: M::Key,
    val: M::Val,
    near: &Tree<M>,
    steps: &mut Steps<C>,
) -> Result<Tree<M>, NoMemory>
    requires increasing { IsIncreasing M.Key.cmp (beside side far.now.entries (key, val) near.now.entries) }
    requires balanced { 4 * M.BLOCK < length far.now.entries + length near.now.entries + 1 → IsBalanced (weight far.now.entries) (weight near.now.entries) }
    ensures entries { IfOk result (λ tree. tree.entries ≡ beside side far.now.entries (key, val) near.now.entries) }
    ensures cost { steps.new ≤ steps.old + link_cost M.BLOCK }
{
    match side {
        Side::Left => Tree::link(alloc, near, key, val, far, steps),
        Side::Right => Tree::link(alloc, far, key, val, near, steps),
    }
}

/// The same as `link_beside`, of an entry that gets another owner.
pub(crate) fn link_lent<M: Shape, C: Ledger>(
    alloc: Global,
    side: Side,
    far: &Tree<M>,
    key: &M::Key,
    val: &M::Val,
    near: &Tree<M>,
    steps: &mut Steps<C>,
) -> Result<Tree<M>, NoMemory>
    requires increasing { IsIncreasing M.Key.cmp (beside side far.now.entries (key.now, val.now) near.now.entries) }
    requires balanced { 4 * M.BLOCK < length far.now.entries + length near.now.entries + 1 → IsBalanced (weight far.now.entries) (weight near.now.entries) }
    ensures entries { IfOk result (λ tree. tree.entries ≡ beside side far.now.entries (key.now, val.now) near.now.entries) }
    ensures cost { steps.new ≤ steps.old + link_cost M.BLOCK }
{
    let (key, val) = share_entry(alloc, key, val)?;
    link_beside(alloc, side, far, key, val, near, steps)
}
