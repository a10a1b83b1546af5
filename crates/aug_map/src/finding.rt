//! The entries that a batch of keys names.
ghost use Rattle.std.specs.Prelude.{◌≡◌, ◌+◌, ◌*◌, ◌≤◌, IfOk, length};
ghost use Rattle.map_model.specs.Operations.{found_in};
ghost use Rattle.aug_monoid.specs.Fresh.{IsFresh};

use aug_monoid::{NoMemory, Share, Steps};
use std::alloc::Global;
use std::marker::Brand;
use std::sync::ledger::{Blank, Ledger};
use tree_entry::get;
use tree_shape::{Shape, Tree};

/// The entries of a tree that keys name, in the order of the keys; a key that the tree hasn't is passed over. O(k * log n) for k
/// keys and a tree of n entries. `NoMemory` for want of memory alone.
pub(crate) fn entries_at<M: Shape>(
    alloc: Global,
    tree: &Tree<M>,
    keys: &[M::Key],
) -> Result<Vec<(M::Key, M::Val)>, NoMemory>
    ensures { IfOk result (λ v. v.items ≡ found_in M.Key.cmp tree.now.entries keys.now) }
{
    entries_at_uncounted::<M, Brand>(alloc, tree, keys, Blank::new(1))
}

fn entries_at_uncounted<M: Shape, C: Ledger>(
    alloc: Global,
    tree: &Tree<M>,
    keys: &[M::Key],
    blank: Blank,
) -> Result<Vec<(M::Key, M::Val)>, NoMemory>
    requires { IsFresh C.name C.parts blank }
    ensures { IfOk result (λ v. v.items ≡ found_in M.Key.cmp tree.now.entries keys.now) }
{
    let mut steps = Steps::<C>::start(blank);
    entries_at_counted(alloc, tree, keys, &mut steps)
}

/// `entries_at` with a counter of the caller's. For k keys it takes at most `k * (height + M::Leaf::FIND)` steps.
pub(crate) fn entries_at_counted<M: Shape, C: Ledger>(
    alloc: Global,
    tree: &Tree<M>,
    keys: &[M::Key],
    steps: &mut Steps<C>,
) -> Result<Vec<(M::Key, M::Val)>, NoMemory>
    ensures value { IfOk result (λ v. v.items ≡ found_in M.Key.cmp tree.now.entries keys.now) }
    ensures cost { IfOk result (λ _. steps.new ≤ steps.old + length keys.now * (tree.now.height + M.Leaf.FIND)) }
{
    let mut found = Vec::new(alloc);
    for key in keys {
        if let Some(val) = get(alloc, tree, key, steps)? {
            found.push((key.share(alloc)?, val))?;
        }
    }
    Ok(found)
}
