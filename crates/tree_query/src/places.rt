//! Places of keys, and entries by their places.
ghost use Rattle.std.specs.Prelude.{◌≡◌, ◌+◌, ◌≤◌, ◌<◌, IfOk, IsOk};
ghost use Rattle.map_model.specs.Parts.{rank, select};

use aug_monoid::{Key, Leaf, NoMemory, Steps, owned, share_entry};
use std::alloc::Global;
use std::cmp::Ordering;
use std::sync::ledger::Ledger;
use tree_join::Part;
use tree_shape::{Look, Shape, Tree};

/// How many keys are less than `key`. It goes down one path, in at most `height + M::Leaf::FIND` steps, and takes no memory.
pub fn rank<M: Shape, C: Ledger>(tree: &Tree<M>, key: &M::Key, steps: &mut Steps<C>) -> u64
    ensures value { result ≡ rank M.Key.cmp tree.now.entries key.now }
    ensures cost { steps.new ≤ steps.old + (tree.now.height + M.Leaf.FIND) }
{
    rank_in(Part { tree }, key, steps)
}

fn rank_in<M: Shape, C: Ledger>(part: Part<'_, M>, key: &M::Key, steps: &mut Steps<C>) -> u64
    ensures value { result ≡ rank M.Key.cmp part.entry.tree.now.entries key.now }
    ensures cost { steps.new ≤ steps.old + (part.entry.tree.now.height + M.Leaf.FIND) }
{
    match part.tree.look() {
        Look::Empty => 0,
        Look::Block { leaf } => leaf.seek(key, steps).at,
        Look::Node {
            left,
            key: middle,
            right,
            ..
        } => match key.order(middle, steps) {
            Ordering::Less => rank_in(Part { tree: left }, key, steps),
            Ordering::Equal => left.size(),
            Ordering::Greater => {
                let behind = part.tree.size() - right.size();
                behind + rank_in(Part { tree: right }, key, steps)
            }
        },
    }
}

/// The entry at a place, counted from 0; none exactly where the map has at most `at` entries. It goes down one path, and takes
/// no memory where the shares of keys and values take none.
pub fn select<M: Shape>(
    alloc: Global,
    tree: &Tree<M>,
    at: u64,
) -> Result<Option<(M::Key, M::Val)>, NoMemory>
    ensures value { IfOk result (λ entry. entry ≡ select tree.now.entries at) }
    ensures succeeds { M.Key.never_refuses → M.Val.never_refuses → IsOk result }
{
    // A loop, since a recursion would hand the entry up again through each level.
    let mut part = tree;
    let mut at_in = at;
    'down: loop {
        match part.look() {
            Look::Empty => return Ok(None),
            Look::Block { leaf } => return owned(alloc, leaf.get_at(at_in)),
            Look::Node {
                left,
                key,
                val,
                right,
            } => {
                let before = left.size();
                if at_in < before {
                    part = left;
                } else if at_in == before {
                    return Ok(Some(share_entry(alloc, key, val)?));
                } else {
                    part = right;
                    at_in -= before + 1;
                }
            }
        }
    }
}
