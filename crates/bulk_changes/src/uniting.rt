//! Union with a slice.
ghost use Rattle.std.specs.Prelude.{◌≡◌, IfOk, length};
ghost use Rattle.aug_monoid.specs.Fresh.{IsFresh};
ghost use Rattle.fork_join.specs.Openings.{IsOpened};
ghost use Rattle.map_model.specs.Entries.{IsIncreasing};
ghost use Rattle.bulk_changes.specs.Parts.{IsPutTogether, union_of_part};

use crate::into_shape::IntoShape;
use crate::merging::{merge_into, resolved};
use crate::taking::{Taken, take_apart};
use aug_monoid::{Leaf, NoMemory, Resolve, Steps};
use entry_lists::cut_slice;
use fork_join::{Divide, Opened};
use std::alloc::Global;
use std::marker::Brand;
use std::sync::ledger::{Blank, Ledger};
use tree_make::{joined, tree_of};
use tree_shape::{Shape, Tree};

/// The union of a map that is given up with a list whose keys rise, as work for `divide` and `divide_alone`. At a key of both the
/// value is what `how` makes of the value in the map and the value in the list.
///
/// Nodes, blocks and entries that have one owner are moved, and those that have more are copied, so that copies taken before stay
/// as they were. The entries of the list are shared. Each node cuts the list at its key, and the halves are done side by side
/// where the cut allows it; a side of which the list has nothing stays as it is. For a list of k entries and a map of n,
/// O(k * log(n / k + 1)) work. `NoMemory` for want of memory alone, and then the map is lost.
#[derive(Drop)]
pub struct UnitingInto<'a, H> {
    pub how: &'a H,
}

impl<'a, 'b, M: IntoShape, H: Resolve<M::Val>> Divide<
    (Tree<M>, &'b [(M::Key, M::Val)]),
    (M::Key, M::Val),
    Tree<M>,
> for UnitingInto<'a, H> {
    ghost fits = { λ _ part. IsIncreasing M.Key.cmp part.1.now };

    ghost answers = { λ work part out. out.entries ≡ union_of_part M.Key.cmp (H.resolved work.how.now) part };

    ghost divides = { λ work. IsPutTogether M.Key.cmp (H.resolved work.how.now) };

    ghost extent = { λ _ part. length part.0.entries };

    ghost bound = { λ _ _. 0 };

    ghost closing = { λ _ _. 0 };

    // A map alone is no work.
    fn size(&self, part: &(Tree<M>, &'b [(M::Key, M::Val)])) -> u64 {
        part.1.len() as u64
    }

    fn open<C: Ledger>(
        &self,
        alloc: Global,
        part: (Tree<M>, &'b [(M::Key, M::Val)]),
        _steps: &mut Steps<C>,
    ) -> Result<Opened<(Tree<M>, &'b [(M::Key, M::Val)]), (M::Key, M::Val), Tree<M>>, NoMemory> {
        let (tree, list) = part;
        open_alone::<M, H, Brand>(alloc, self.how, tree, list, Blank::new(1))
    }

    fn close<C: Ledger>(
        &self,
        alloc: Global,
        left: Tree<M>,
        middle: (M::Key, M::Val),
        right: Tree<M>,
        _steps: &mut Steps<C>,
    ) -> Result<Tree<M>, NoMemory> {
        joined::<M>(alloc, left, middle, right)
    }
}

/// `open_part` with a counter of its own: what an opening takes is bounded by no clause here.
fn open_alone<'b, M: IntoShape, H: Resolve<M::Val>, C: Ledger>(
    alloc: Global,
    how: &H,
    tree: Tree<M>,
    list: &'b [(M::Key, M::Val)],
    blank: Blank,
) -> Result<Opened<(Tree<M>, &'b [(M::Key, M::Val)]), (M::Key, M::Val), Tree<M>>, NoMemory>
    requires increasing { IsIncreasing M.Key.cmp list.now }
    requires fresh { IsFresh C.name C.parts blank }
    ensures { IfOk result (IsOpened (λ part. IsIncreasing M.Key.cmp part.1.now) (λ out. out.entries ≡ union_of_part M.Key.cmp (H.resolved how.now) (tree, list.entry)) (IsPutTogether M.Key.cmp (H.resolved how.now) (tree, list.entry)) (λ part. length part.0.entries) (length tree.entries)) }
{
    let mut steps = Steps::<C>::start(blank);
    open_part(alloc, how, tree, list, &mut steps)
}

/// The tree of increasing entries that are handed over. What fits in one block, in a vector with little room to spare, becomes that
/// block as it stands.
fn tree_of_merged<M: IntoShape, C: Ledger>(
    alloc: Global,
    merged: Vec<(M::Key, M::Val)>,
    steps: &mut Steps<C>,
) -> Result<Tree<M>, NoMemory>
    requires { IsIncreasing M.Key.cmp merged.items }
    ensures { IfOk result (λ tree. tree.entries ≡ merged.items) }
{
    let count = merged.len();
    if count <= 2 * M::BLOCK && merged.capacity() <= count + count / 4 + 1 {
        let leaf = <M::Leaf>::from_owned(alloc, merged)?;
        return Tree::from_leaf(alloc, leaf, steps);
    }
    tree_of(alloc, merged)
}

/// A map that stays as it is, one of at most one block, whose entries are merged with the slice, or one whose top is a node,
/// at whose key the slice is cut.
fn open_part<'b, M: IntoShape, H: Resolve<M::Val>, C: Ledger>(
    alloc: Global,
    how: &H,
    tree: Tree<M>,
    list: &'b [(M::Key, M::Val)],
    steps: &mut Steps<C>,
) -> Result<Opened<(Tree<M>, &'b [(M::Key, M::Val)]), (M::Key, M::Val), Tree<M>>, NoMemory>
    requires { IsIncreasing M.Key.cmp list.now }
    ensures { IfOk result (IsOpened (λ part. IsIncreasing M.Key.cmp part.1.now) (λ out. out.entries ≡ union_of_part M.Key.cmp (H.resolved how.now) (tree, list.entry)) (IsPutTogether M.Key.cmp (H.resolved how.now) (tree, list.entry)) (λ part. length part.0.entries) (length tree.entries)) }
{
    if list.is_empty() {
        return Ok(Opened::Done(tree));
    }
    let _size = tree.size(); // for the proof alone: keys rise
    match take_apart(alloc, tree)? {
        Taken::Entries(entries) => {
            let merged = merge_into(alloc, entries, list, how, steps)?;
            Ok(Opened::Done(tree_of_merged(alloc, merged, steps)?))
        }
        Taken::Node {
            left,
            key,
            val,
            right,
        } => {
            let parts = cut_slice(list, &key, steps);
            let val = resolved(alloc, val, parts.found, how)?;
            Ok(Opened::Split((left, parts.below), (key, val), (right, parts.above)))
        }
    }
}
