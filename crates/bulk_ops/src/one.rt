//! A tree combined with one entry.
ghost use Rattle.std.specs.Prelude.{◌≡◌, ◌+◌, ◌*◌, ◌≤◌, ◌∷◌, ◌++◌, [], IfOk};
ghost use Rattle.std.specs.List.{cons_option};
ghost use Rattle.map_model.specs.Entries.{above, below};
ghost use Rattle.bulk_ops.specs.Combination.{entry_at};

use crate::combination::Combination;
use aug_monoid::{NoMemory, Share, Steps};
use std::alloc::Global;
use std::sync::ledger::Ledger;
use tree_entry::{del, get, put};
use tree_shape::{Shape, Tree};

/// The tree of what is to stand at a key.
fn alone<M: Shape, C: Ledger>(
    alloc: Global,
    key: &M::Key,
    val: Option<M::Val>,
    steps: &mut Steps<C>,
) -> Result<Tree<M>, NoMemory>
    ensures value { IfOk result (λ out. out.entries ≡ cons_option (entry_at key.now val) []) }
    ensures cost { steps.new ≤ steps.old + (64 * (M.BLOCK + 2) + M.Leaf.FIND) }
{
    let none = Tree::empty();
    match val {
        Some(val) => put(alloc, &none, key.share(alloc)?, val, steps),
        None => Ok(none),
    }
}

/// The tree with what is to stand at a key.
fn changed<M: Shape, C: Ledger>(
    alloc: Global,
    tree: &Tree<M>,
    key: &M::Key,
    val: Option<M::Val>,
    steps: &mut Steps<C>,
) -> Result<Tree<M>, NoMemory>
    ensures value { IfOk result (λ out. out.entries ≡ below M.Key.cmp tree.now.entries key.now ++ cons_option (entry_at key.now val) (above M.Key.cmp tree.now.entries key.now)) }
    ensures cost { steps.new ≤ steps.old + (64 * (tree.now.height + 1) * (M.BLOCK + 2) + M.Leaf.FIND) }
{
    let _size = tree.size(); // for the proof alone: keys rise
    match val {
        Some(val) => put(alloc, tree, key.share(alloc)?, val, steps),
        None => del(alloc, tree, key, steps),
    }
}

/// A tree combined with one entry: one path of the tree is copied, or only the entry is left.
pub(crate) fn combine_one<M: Shape, W: Combination<M::Key, M::Val>, C: Ledger>(
    alloc: Global,
    how: &W,
    tree: &Tree<M>,
    entry: &(M::Key, M::Val),
    steps: &mut Steps<C>,
) -> Result<Tree<M>, NoMemory>
    ensures value { IfOk result (λ out. out.entries ≡ W.combined how.now tree.now.entries (entry.now ∷ [])) }
    ensures cost { steps.new ≤ steps.old + (tree.now.height + 64 * (tree.now.height + 1) * (M.BLOCK + 2) + 2 * M.Leaf.FIND) }
{
    let _size = tree.size(); // for the proof alone: keys rise
    let (key, val) = entry;
    let old = get(alloc, tree, key, steps)?;
    let kept = how.keep(alloc, old.as_ref(), Some(val))?;
    if how.keeps_first() {
        changed(alloc, tree, key, kept, steps)
    } else {
        alone(alloc, key, kept, steps)
    }
}
