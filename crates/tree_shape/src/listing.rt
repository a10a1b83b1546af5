//! A tree of given entries, and the entries of a tree.
ghost use Rattle.std.specs.Prelude.{◌≡◌, ◌+◌, ◌-◌, ◌*◌, ◌/◌, ◌^◌, ◌<◌, ◌≤◌, ◌++◌, [], ◌∷◌, IfOk, OnErr, length, map, take};
ghost use Rattle.std.specs.Vec.Iter.{into_iter_items};
ghost use Rattle.map_model.specs.Balance.{FillsNode, IsBalanced, weight};
ghost use Rattle.map_model.specs.Entries.{IsIncreasing};
ghost use Rattle.tree_shape.specs.Cuts.{IsCutAround};
ghost use Rattle.tree_shape.specs.LeafLists.{BeginsWith, leaf_lists};

use crate::look::Look;
use crate::shape::Shape;
use crate::tree::Tree;
use aug_monoid::{Key, Leaf, NoMemory, Share, Steps, share_entry};
use std::alloc::Global;
use std::sync::ledger::Ledger;
use std::vec::IntoIter;

/// Appends an entry.
fn push_shared<K: Key, V: Share>(
    alloc: Global,
    key: &K,
    val: &V,
    out: &mut Vec<(K, V)>,
) -> Result<(), NoMemory>
    ensures appended { IfOk result (λ _. out.new.items ≡ out.old.items ++ (key.now, val.now) ∷ []) }
    ensures kept { OnErr result (out.new.items ≡ out.old.items) }
{
    out.push(share_entry(alloc, key, val)?)?;
    Ok(())
}

/// The entry in the middle of a slice, and what stands before and after it.
fn cut_middle<E>(from: &[E]) -> (&[E], &E, &[E])
    requires { 0 < length from.now }
    ensures { IsCutAround from.now ((length from.now - 1) / 2) result.0.now result.1.now result.2.now }
{
    let (front, rest) = from.split_at((from.len() - 1) / 2);
    let Some((middle, back)) = rest.split_first() else {
        unreachable!()
    };
    (front, middle, back)
}

impl<M: Shape> Tree<M> {
    /// Appends the entries in the order of their keys, block by block, in time linear in their number. A refusal leaves some of
    /// them behind what stood there before.
    pub fn push_entries(
        &self,
        alloc: Global,
        out: &mut Vec<(M::Key, M::Val)>,
    ) -> Result<(), NoMemory>
        ensures appended { IfOk result (λ _. out.new.items ≡ out.old.items ++ self.now.entries) }
        ensures kept { take (length out.old.items) out.new.items ≡ out.old.items }
    {
        match self.look() {
            Look::Empty => Ok(()),
            Look::Block { leaf } => leaf.share_into(alloc, out),
            Look::Node {
                left,
                key,
                val,
                right,
            } => {
                left.push_entries(alloc, out)?;
                push_shared(alloc, key, val, out)?;
                right.push_entries(alloc, out)
            }
        }
    }

    /// The tree of entries whose keys rise, by halves, in time linear in their number. All its leaves are made first, one after another,
    /// so that what a walk reads stands in its order in memory.
    pub fn from_increasing<C: Ledger>(
        alloc: Global,
        from: &[(M::Key, M::Val)],
        steps: &mut Steps<C>,
    ) -> Result<Tree<M>, NoMemory>
        requires increasing { IsIncreasing M.Key.cmp from.now }
        requires fits { length from.now < 2 ^ 60 }
        ensures entries { IfOk result (λ tree. tree.entries ≡ from.now) }
        ensures cost { steps.new ≤ steps.old + 2 * length from.now }
    {
        if from.len() <= 2 * M::BLOCK {
            let leaf = <M::Leaf>::from_entries(alloc, from)?;
            return Self::block_or_none(alloc, leaf, steps);
        }
        let mut leaves = Vec::new(alloc);
        Self::push_leaves(alloc, from, &mut leaves)?;
        Self::take_over(alloc, from, &mut leaves.into_iter(), steps)
    }

    /// Appends the leaves of entries, those of the two halves where there are too many for one.
    fn push_leaves(
        alloc: Global,
        from: &[(M::Key, M::Val)],
        leaves: &mut Vec<M::Leaf>,
    ) -> Result<(), NoMemory>
        requires increasing { IsIncreasing M.Key.cmp from.now }
        ensures { IfOk result (λ _. map M.Leaf.entries leaves.new.items ≡ map M.Leaf.entries leaves.old.items ++ leaf_lists (2 * M.BLOCK) from.now) }
    {
        if from.len() <= 2 * M::BLOCK {
            let leaf = <M::Leaf>::from_entries(alloc, from)?;
            leaves.push(leaf)?;
            return Ok(());
        }
        let (front, _, back) = cut_middle(from);
        Self::push_leaves(alloc, front, leaves)?;
        Self::push_leaves(alloc, back, leaves)
    }

    /// The tree of entries over their leaves, with which `leaves` begins, and which it takes.
    fn take_over<C: Ledger>(
        alloc: Global,
        from: &[(M::Key, M::Val)],
        leaves: &mut IntoIter<M::Leaf>,
        steps: &mut Steps<C>,
    ) -> Result<Tree<M>, NoMemory>
        requires increasing { IsIncreasing M.Key.cmp from.now }
        requires fits { length from.now < 2 ^ 60 }
        requires theirs { BeginsWith (map M.Leaf.entries (into_iter_items leaves.old)) (leaf_lists (2 * M.BLOCK) from.now) }
        ensures entries { IfOk result (λ tree. tree.entries ≡ from.now) }
        ensures taken { IfOk result (λ _. map M.Leaf.entries (into_iter_items leaves.old) ≡ leaf_lists (2 * M.BLOCK) from.now ++ map M.Leaf.entries (into_iter_items leaves.new)) }
        ensures cost { steps.new ≤ steps.old + 2 * length from.now }
    {
        if from.len() <= 2 * M::BLOCK {
            let Some(leaf) = leaves.next() else {
                unreachable!()
            };
            return Self::block_or_none(alloc, leaf, steps);
        }
        let (front, middle, back) = cut_middle(from);
        let left = Self::take_over(alloc, front, leaves, steps)?;
        let right = Self::take_over(alloc, back, leaves, steps)?;
        Self::node_around(alloc, left, middle, right, steps)
    }

    /// A node over two balanced sides and another owner of an entry between them.
    fn node_around<C: Ledger>(
        alloc: Global,
        left: Tree<M>,
        middle: &(M::Key, M::Val),
        right: Tree<M>,
        steps: &mut Steps<C>,
    ) -> Result<Tree<M>, NoMemory>
        requires increasing { IsIncreasing M.Key.cmp (left.entries ++ middle.now ∷ right.entries) }
        requires balanced { IsBalanced (weight left.entries) (weight right.entries) }
        requires filled { FillsNode M.BLOCK (length left.entries) (length right.entries) }
        ensures entries { IfOk result (λ tree. tree.entries ≡ left.entries ++ middle.now ∷ right.entries) }
        ensures cost { steps.new ≤ steps.old + 2 }
    {
        let (key, val) = middle.share(alloc)?;
        Self::node(alloc, left, key, val, right, steps)
    }

    /// The tree of entries that are handed over, whose keys rise, in time linear in their number. It shares none of them. What fits in
    /// one block, in a vector with little room to spare, becomes that block as it stands.
    pub fn from_owned<C: Ledger>(
        alloc: Global,
        from: Vec<(M::Key, M::Val)>,
        steps: &mut Steps<C>,
    ) -> Result<Tree<M>, NoMemory>
        requires increasing { IsIncreasing M.Key.cmp from.items }
        requires fits { length from.items < 2 ^ 60 }
        ensures entries { IfOk result (λ tree. tree.entries ≡ from.items) }
        ensures cost { steps.new ≤ steps.old + 2 * length from.items }
    {
        let count = from.len();
        if count <= 2 * M::BLOCK && from.capacity() <= count + count / 4 + 1 {
            let leaf = <M::Leaf>::from_owned(alloc, from)?;
            return Self::block_or_none(alloc, leaf, steps);
        }
        let mut rest = from;
        Self::take_last(alloc, &mut rest, count, steps)
    }

    /// The block of the last entries of a vector, which are taken off it, or none where it is none of them.
    fn take_block<C: Ledger>(
        alloc: Global,
        from: &mut Vec<(M::Key, M::Val)>,
        count: usize,
        steps: &mut Steps<C>,
    ) -> Result<Tree<M>, NoMemory>
        requires increasing { IsIncreasing M.Key.cmp from.old.items }
        requires inside { count ≤ length from.old.items }
        requires short { count ≤ 2 * M.BLOCK }
        ensures entries { IfOk result (λ tree. from.old.items ≡ from.new.items ++ tree.entries) }
        ensures count { IfOk result (λ tree. length tree.entries ≡ count) }
        ensures cost { steps.new ≤ steps.old + count }
    {
        let entries = from.split_off(from.len() - count)?;
        let leaf = <M::Leaf>::from_owned(alloc, entries)?;
        Self::block_or_none(alloc, leaf, steps)
    }

    /// The tree of the last entries of a vector, which are taken off it, by halves.
    fn take_last<C: Ledger>(
        alloc: Global,
        from: &mut Vec<(M::Key, M::Val)>,
        count: usize,
        steps: &mut Steps<C>,
    ) -> Result<Tree<M>, NoMemory>
        requires increasing { IsIncreasing M.Key.cmp from.old.items }
        requires fits { length from.old.items < 2 ^ 60 }
        requires inside { count ≤ length from.old.items }
        ensures entries { IfOk result (λ tree. from.old.items ≡ from.new.items ++ tree.entries) }
        ensures count { IfOk result (λ tree. length tree.entries ≡ count) }
        ensures cost { steps.new ≤ steps.old + 2 * count }
    {
        if count <= 2 * M::BLOCK {
            return Self::take_block(alloc, from, count, steps);
        }
        let before = (count - 1) / 2;
        let right = Self::take_last(alloc, from, count - 1 - before, steps)?;
        let Some((key, val)) = from.pop() else {
            unreachable!()
        };
        let left = Self::take_last(alloc, from, before, steps)?;
        Self::node(alloc, left, key, val, right, steps)
    }
}
