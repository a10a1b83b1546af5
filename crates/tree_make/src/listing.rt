//! Trees of entries, and the entries of trees.
ghost use Rattle.std.specs.Prelude.{◌≡◌, ◌+◌, ◌*◌, ◌<◌, ◌≤◌, ◌^◌, IfOk, length};
ghost use Rattle.map_model.specs.Entries.{IsIncreasing};
ghost use Rattle.aug_monoid.specs.Fresh.{IsFresh};

use aug_monoid::{NoMemory, Steps};
use std::alloc::Global;
use std::marker::Brand;
use std::sync::ledger::{Blank, Ledger};
use tree_shape::{MOST_ENTRIES, Shape, Tree};

/// The entries of a tree. O(n) for n entries.
pub fn entries_of<M: Shape>(
    alloc: Global,
    tree: &Tree<M>,
) -> Result<Vec<(M::Key, M::Val)>, NoMemory>
    ensures { IfOk result (λ v. v.items ≡ tree.now.entries) }
{
    let mut entries = Vec::with_capacity(alloc, tree.size() as usize)?;
    tree.push_entries(alloc, &mut entries)?;
    Ok(entries)
}

/// The tree of increasing entries that are handed over. O(n) for n entries. `NoMemory` also for more than a map can have.
pub fn tree_of<M: Shape>(alloc: Global, entries: Vec<(M::Key, M::Val)>) -> Result<Tree<M>, NoMemory>
    requires increasing { IsIncreasing M.Key.cmp entries.items }
    ensures { IfOk result (λ tree. tree.entries ≡ entries.items) }
{
    tree_of_uncounted::<M, Brand>(alloc, entries, Blank::new(1))
}

fn tree_of_uncounted<M: Shape, C: Ledger>(
    alloc: Global,
    entries: Vec<(M::Key, M::Val)>,
    blank: Blank,
) -> Result<Tree<M>, NoMemory>
    requires increasing { IsIncreasing M.Key.cmp entries.items }
    requires fresh { IsFresh C.name C.parts blank }
    ensures { IfOk result (λ tree. tree.entries ≡ entries.items) }
{
    let mut steps = Steps::<C>::start(blank);
    tree_of_counted(alloc, entries, &mut steps)
}

/// The same as `tree_of`, with a counter of the caller's, in at most `2 * n` steps for n entries.
pub fn tree_of_counted<M: Shape, C: Ledger>(
    alloc: Global,
    entries: Vec<(M::Key, M::Val)>,
    steps: &mut Steps<C>,
) -> Result<Tree<M>, NoMemory>
    requires increasing { IsIncreasing M.Key.cmp entries.items }
    ensures entries { IfOk result (λ tree. tree.entries ≡ entries.items) }
    ensures cost { steps.new ≤ steps.old + 2 * length entries.items }
{
    if entries.len() as u64 >= MOST_ENTRIES {
        return Err(NoMemory);
    }
    Tree::from_owned(alloc, entries, steps)
}

/// The tree of increasing entries, which are shared. O(n) for n entries. `NoMemory` also for more than a map can have.
pub fn tree_of_slice<M: Shape>(
    alloc: Global,
    entries: &[(M::Key, M::Val)],
) -> Result<Tree<M>, NoMemory>
    requires increasing { IsIncreasing M.Key.cmp entries.now }
    ensures { IfOk result (λ tree. tree.entries ≡ entries.now) }
{
    if entries.len() as u64 >= MOST_ENTRIES {
        return Err(NoMemory);
    }
    tree_of_slice_uncounted::<M, Brand>(alloc, entries, Blank::new(1))
}

fn tree_of_slice_uncounted<M: Shape, C: Ledger>(
    alloc: Global,
    entries: &[(M::Key, M::Val)],
    blank: Blank,
) -> Result<Tree<M>, NoMemory>
    requires increasing { IsIncreasing M.Key.cmp entries.now }
    requires fits { length entries.now < 2 ^ 60 }
    requires fresh { IsFresh C.name C.parts blank }
    ensures { IfOk result (λ tree. tree.entries ≡ entries.now) }
{
    let mut steps = Steps::<C>::start(blank);
    Tree::from_increasing(alloc, entries, &mut steps)
}
