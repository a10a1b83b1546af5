//! A key removed in place.
ghost use Rattle.std.specs.Prelude.{◌≡◌, ◌+◌, ◌*◌, ◌≤◌, IfOk, OnErr};
ghost use Rattle.map_model.specs.Entries.{drop_key};

use crate::blocks::del_in_own_block;
use crate::nodes::{PartMut, Way, refresh, way_of_del};
use crate::shape_mut::ShapeMut;
use aug_monoid::{Augment, NoMemory, Steps};
use std::alloc::Global;
use std::sync::Arc;
use std::sync::ledger::Ledger;
use tree_entry::del;
use tree_shape::{Top, Tree};

/// Removes a key, which the map need not have, in O(log n + M::BLOCK) time: in place at each node and block that has one owner
/// and keeps its shape, and from the first one on that has not, or would not, and from the node whose own entry it is, as `del`
/// does. After a refusal the map is as it was. It takes at most `64 * (height + 1) * (M::BLOCK + 2) + M::Leaf::FIND` steps.
pub fn del_mut<M: ShapeMut, C: Ledger>(
    alloc: Global,
    tree: &mut Tree<M>,
    key: &M::Key,
    steps: &mut Steps<C>,
) -> Result<(), NoMemory>
    ensures entries { IfOk result (λ _. tree.new.entries ≡ drop_key M.Key.cmp tree.old.entries key.now) }
    ensures kept { OnErr result (tree.new ≡ tree.old) }
    ensures cost { steps.new ≤ steps.old + (64 * (tree.old.height + 1) * (M.BLOCK + 2) + M.Leaf.FIND) }
{
    if <M::Augment>::is_total() {
        return del_in(alloc, PartMut { tree }, key, steps);
    }
    *tree = del(alloc, tree, key, steps)?;
    Ok(())
}

/// Whether a node may change in place is asked before the way down, so that nothing has changed when memory is asked for.
fn del_in<M: ShapeMut, C: Ledger>(
    alloc: Global,
    part: PartMut<'_, M>,
    key: &M::Key,
    steps: &mut Steps<C>,
) -> Result<(), NoMemory>
    requires total { M.Augment.never_refuses }
    ensures entries { IfOk result (λ _. part.exit.0.now.entries ≡ drop_key M.Key.cmp part.entry.tree.now.entries key.now) }
    ensures kept { OnErr result (part.exit.0.now ≡ part.entry.tree.now) }
    ensures cost { steps.new ≤ steps.old + (64 * (part.entry.tree.now.height + 1) * (M.BLOCK + 2) + M.Leaf.FIND) }
{
    let PartMut { tree } = part;
    match &mut tree.top {
        Top::Empty => return Ok(()),
        Top::Block(owner) => {
            if let Some(block) = Arc::get_mut(owner) {
                if !del_in_own_block(alloc, block, key, steps)? {
                    return Ok(());
                }
                *tree = Tree::empty();
                return Ok(());
            }
        }
        Top::Node(owner) => {
            if let Some(node) = Arc::get_mut(owner) {
                match way_of_del(node, key, steps) {
                    Way::Left => {
                        let left = PartMut {
                            tree: &mut node.left,
                        };
                        del_in(alloc, left, key, steps)?;
                        refresh(alloc, node, steps);
                        return Ok(());
                    }
                    Way::Right => {
                        let right = PartMut {
                            tree: &mut node.right,
                        };
                        del_in(alloc, right, key, steps)?;
                        refresh(alloc, node, steps);
                        return Ok(());
                    }
                    Way::Here | Way::Copy => {}
                }
            }
        }
    }
    *tree = del(alloc, tree, key, steps)?;
    Ok(())
}
