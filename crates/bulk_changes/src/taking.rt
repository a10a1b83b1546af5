//! Trees taken apart.
ghost use Rattle.std.specs.Prelude.{◌≡◌, ◌∷◌, ◌++◌, IfOk};
ghost use Rattle.std.specs.Arc.{arc_value};
ghost use Rattle.bulk_changes.specs.Taken.{IsTaken, IsTakenFrom};

use crate::into_entries::{IntoEntries, copied_entries};
use crate::into_shape::IntoShape;
use aug_monoid::{NoMemory, Share, share_entry};
use std::alloc::Global;
use std::mem;
use std::sync::Arc;
use tree_shape::{Block, Node, Shape, Top, Tree};

/// What a tree consisted of that was given up.
#[derive(Drop)]
pub(crate) enum Taken<M: Shape> {
    /// The entries of a tree of at most one block.
    Entries(Vec<(M::Key, M::Val)>),
    /// The sides of a node and the entry between them.
    Node {
        left: Tree<M>,
        key: M::Key,
        val: M::Val,
        right: Tree<M>,
    },
}

/// A tree taken apart at its top: what has one owner is moved, and what has more is shared.
pub(crate) fn take_apart<M: IntoShape>(alloc: Global, tree: Tree<M>) -> Result<Taken<M>, NoMemory>
    ensures { IfOk result (IsTaken tree) }
{
    let mut tree = tree;
    match mem::replace(&mut tree.top, Top::Empty) {
        Top::Empty => Ok(Taken::Entries(Vec::new(alloc))),
        Top::Block(owner) => Ok(Taken::Entries(block_entries(alloc, owner)?)),
        Top::Node(owner) => node_parts(alloc, owner),
    }
}

/// The entries of a block that an owner gives up.
fn block_entries<M: IntoShape>(
    alloc: Global,
    owner: Arc<Block<M>>,
) -> Result<Vec<(M::Key, M::Val)>, NoMemory>
    ensures { IfOk result (λ v. v.items ≡ M.Leaf.entries (arc_value owner).leaf) }
{
    match Arc::try_unwrap(owner) {
        Ok(block) => {
            let Block { leaf, fold: _ } = block;
            leaf.into_entries(alloc)
        }
        Err(shared) => copied_entries(alloc, &shared.leaf),
    }
}

/// The parts of a node that an owner gives up.
fn node_parts<M: Shape>(alloc: Global, owner: Arc<Node<M>>) -> Result<Taken<M>, NoMemory>
    ensures { IfOk result (IsTakenFrom (arc_value owner)) }
{
    match Arc::try_unwrap(owner) {
        Ok(node) => {
            let Node {
                left,
                key,
                val,
                right,
                ..
            } = node;
            Ok(Taken::Node {
                left,
                key,
                val,
                right,
            })
        }
        Err(shared) => shared_parts(alloc, &shared),
    }
}

/// The parts of a node that stays.
fn shared_parts<M: Shape>(alloc: Global, node: &Node<M>) -> Result<Taken<M>, NoMemory>
    ensures { IfOk result (IsTakenFrom node.now) }
{
    let left = node.left.share(alloc)?;
    let (key, val) = share_entry::<M::Key, M::Val>(alloc, &node.key, &node.val)?;
    let right = node.right.share(alloc)?;
    Ok(Taken::Node {
        left,
        key,
        val,
        right,
    })
}
