//! Nodes and blocks over given entries.
ghost use Rattle.std.specs.Prelude.{◌≡◌, ◌+◌, ◌-◌, ◌*◌, ◌/◌, ◌^◌, ◌<◌, ◌≤◌, ◌∷◌, ◌++◌, IfOk, IsOk, length, max};
ghost use Rattle.std.specs.Arc.{arc_value};
ghost use Rattle.map_model.specs.Balance.{FillsNode, HeightLaw, IsBalanced, weight};
ghost use Rattle.map_model.specs.Entries.{IsIncreasing};
ghost use Rattle.map_model.specs.Fold.{fold_of};

use crate::folding::fold_leaf;
use crate::shape::Shape;
use crate::tree::{Block, Node, Top, Tree};
use aug_monoid::{Augment, NoMemory, Steps};
use std::alloc::Global;
use std::sync::Arc;
use std::sync::ledger::Ledger;

/// A map has fewer entries than this.
pub const MOST_ENTRIES: u64 = 0x1000_0000_0000_0000;

/// The fold, the number and the height of the entries that a node stands over.
#[derive(Drop)]
struct Summary<X> {
    fold: X,
    size: u64,
    height: u32,
}

fn shared<T: Drop>(alloc: Global, value: T) -> Result<Arc<T>, NoMemory>
    ensures { IfOk result (λ owner. arc_value owner ≡ value) }
{
    match Arc::new(alloc, value) {
        Ok(owner) => Ok(owner),
        Err(_) => Err(NoMemory),
    }
}

impl<M: Shape> Tree<M> {
    /// A tree of one block.
    pub(crate) fn block<C: Ledger>(
        alloc: Global,
        leaf: M::Leaf,
        steps: &mut Steps<C>,
    ) -> Result<Tree<M>, NoMemory>
        requires increasing { IsIncreasing M.Key.cmp (M.Leaf.entries leaf) }
        requires some { 0 < length (M.Leaf.entries leaf) }
        requires short { length (M.Leaf.entries leaf) ≤ 2 * M.BLOCK }
        ensures entries { IfOk result (λ tree. tree.entries ≡ M.Leaf.entries leaf) }
        ensures cost { steps.new ≤ steps.old + length (M.Leaf.entries leaf) }
    {
        let fold = fold_leaf::<M::Augment, M::Leaf, C>(alloc, &leaf, steps)?;
        let block = shared(alloc, Block { leaf, fold })?;
        Ok(Tree {
            top: Top::Block(block),
        })
    }

    /// The fold of a tree's entries, combined with an augmented value after it.
    fn fold_before<C: Ledger>(
        alloc: Global,
        left: &Tree<M>,
        aug: M::Aug,
        steps: &mut Steps<C>,
    ) -> Result<M::Aug, NoMemory>
        ensures value { M.Augment.Fits aug → IfOk result (λ fold. fold ≡ M.Augment.combined (fold_of M.Augment.base_of M.Augment.unit_of M.Augment.combined left.now.entries) aug) }
        ensures succeeds { M.Augment.never_refuses → IsOk result }
        ensures cost { steps.new ≤ steps.old + 1 }
    {
        match left.aug() {
            Some(fold) => <M::Augment>::combine(alloc, fold, &aug, steps),
            None => Ok(aug),
        }
    }

    /// An augmented value, combined with the fold of a tree's entries after it.
    fn fold_after<C: Ledger>(
        alloc: Global,
        aug: M::Aug,
        right: &Tree<M>,
        steps: &mut Steps<C>,
    ) -> Result<M::Aug, NoMemory>
        ensures value { M.Augment.Fits aug → IfOk result (λ fold. fold ≡ M.Augment.combined aug (fold_of M.Augment.base_of M.Augment.unit_of M.Augment.combined right.now.entries)) }
        ensures succeeds { M.Augment.never_refuses → IsOk result }
        ensures cost { steps.new ≤ steps.old + 1 }
    {
        match right.aug() {
            Some(fold) => <M::Augment>::combine(alloc, &aug, fold, steps),
            None => Ok(aug),
        }
    }

    /// The fold of the entries of two trees with an entry between them. O(1).
    pub fn fold_between<C: Ledger>(
        alloc: Global,
        left: &Tree<M>,
        key: &M::Key,
        val: &M::Val,
        right: &Tree<M>,
        steps: &mut Steps<C>,
    ) -> Result<M::Aug, NoMemory>
        ensures value { IfOk result (λ fold. fold ≡ fold_of M.Augment.base_of M.Augment.unit_of M.Augment.combined (left.now.entries ++ (key.now, val.now) ∷ right.now.entries)) }
        ensures succeeds { M.Augment.never_refuses → IsOk result }
        ensures cost { steps.new ≤ steps.old + 2 }
    {
        let middle = <M::Augment>::base(alloc, key, val)?;
        let front = Self::fold_before(alloc, left, middle, steps)?;
        Self::fold_after(alloc, front, right, steps)
    }

    /// What a node over two sides and an entry between them keeps about their entries.
    fn summary<C: Ledger>(
        alloc: Global,
        left: &Tree<M>,
        key: &M::Key,
        val: &M::Val,
        right: &Tree<M>,
        steps: &mut Steps<C>,
    ) -> Result<Summary<M::Aug>, NoMemory>
        ensures fold { IfOk result (λ new. new.fold ≡ fold_of M.Augment.base_of M.Augment.unit_of M.Augment.combined (left.now.entries ++ (key.now, val.now) ∷ right.now.entries)) }
        ensures size { IfOk result (λ new. new.size ≡ length left.now.entries + length right.now.entries + 1) }
        ensures fits { IfOk result (λ new. new.size < 2 ^ 60) }
        ensures height { IfOk result (λ new. new.height ≡ max left.now.height right.now.height + 1) }
        ensures left_law { HeightLaw M.BLOCK left.now.height (length left.now.entries) }
        ensures right_law { HeightLaw M.BLOCK right.now.height (length right.now.entries) }
        ensures cost { steps.new ≤ steps.old + 2 }
    {
        let size = left.size() + right.size() + 1;
        let height = left.height().max(right.height()) + 1;
        if size >= MOST_ENTRIES {
            return Err(NoMemory);
        }
        let fold = Self::fold_between(alloc, left, key, val, right, steps)?;
        Ok(Summary { fold, size, height })
    }

    /// A node over two balanced sides.
    pub(crate) fn node<C: Ledger>(
        alloc: Global,
        left: Tree<M>,
        key: M::Key,
        val: M::Val,
        right: Tree<M>,
        steps: &mut Steps<C>,
    ) -> Result<Tree<M>, NoMemory>
        requires increasing { IsIncreasing M.Key.cmp (left.entries ++ (key, val) ∷ right.entries) }
        requires balanced { IsBalanced (weight left.entries) (weight right.entries) }
        requires filled { FillsNode M.BLOCK (length left.entries) (length right.entries) }
        ensures entries { IfOk result (λ tree. tree.entries ≡ left.entries ++ (key, val) ∷ right.entries) }
        ensures cost { steps.new ≤ steps.old + 2 }
    {
        let Summary { fold, size, height } = Self::summary(
            alloc, &left, &key, &val, &right, steps,
        )?;
        let node = shared(
            alloc,
            Node {
                left,
                key,
                val,
                right,
                fold,
                size,
                height,
            },
        )?;
        Ok(Tree {
            top: Top::Node(node),
        })
    }
}
