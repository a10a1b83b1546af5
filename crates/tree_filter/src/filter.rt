//! Filters by the augmented values.
ghost use Rattle.std.specs.Prelude.{◌≡◌, ◌+◌, ◌*◌, ◌≤◌, [], ◌∷◌, ◌++◌, length, true, IfOk};
ghost use Rattle.map_model.specs.Entries.{AllAbove, AllBelow, IsIncreasing};
ghost use Rattle.map_model.specs.Fold.{aug_filter};
ghost use Rattle.aug_monoid.specs.Fresh.{IsFresh};
ghost use Rattle.tree_filter.specs.Tests.{filter_tests};

use crate::passing::{entry_passes, fails_whole};
use aug_monoid::{AugTest, Augment, Leaf, NoMemory, Share, Steps};
use std::alloc::Global;
use std::marker::Brand;
use std::sync::ledger::{Blank, Ledger};
use tree_join::{Part, join_lent, join2};
use tree_shape::{Look, Shape, Tree};

/// `aug_filter_counted` with a counter that is thrown away.
pub fn aug_filter<M: Shape, T: AugTest<M::Augment>>(
    alloc: Global,
    tree: &Tree<M>,
    test: &T,
) -> Result<Tree<M>, NoMemory>
    ensures { IfOk result (λ kept. kept.entries ≡ aug_filter M.Augment.base_of (T.admits test.now) tree.now.entries) }
{
    filter_with_counter::<M, T, Brand>(alloc, tree, test, Blank::new(1))
}

// The same, with a counter of its own.
fn filter_with_counter<M: Shape, T: AugTest<M::Augment>, C: Ledger>(
    alloc: Global,
    tree: &Tree<M>,
    test: &T,
    blank: Blank,
) -> Result<Tree<M>, NoMemory>
    requires { IsFresh C.name C.parts blank }
    ensures { IfOk result (λ kept. kept.entries ≡ aug_filter M.Augment.base_of (T.admits test.now) tree.now.entries) }
{
    let mut tests = Steps::<C>::start(blank);
    aug_filter_counted(alloc, tree, test, &mut tests)
}

/// The map of the entries whose augmented values pass. It passes over each tree whose stored fold fails the test, and shares
/// each tree that it keeps whole, so its time goes with the number of entries that pass. Each test is a step, and no other is
/// counted: at most `filter_tests` for the entries that pass.
pub fn aug_filter_counted<M: Shape, T: AugTest<M::Augment>, C: Ledger>(
    alloc: Global,
    tree: &Tree<M>,
    test: &T,
    tests: &mut Steps<C>,
) -> Result<Tree<M>, NoMemory>
    ensures entries { IfOk result (λ kept. kept.entries ≡ aug_filter M.Augment.base_of (T.admits test.now) tree.now.entries) }
    ensures cost { tests.new ≤ tests.old + filter_tests M.BLOCK tree.now.height (length (aug_filter M.Augment.base_of (T.admits test.now) tree.now.entries)) }
{
    filter_joining::<M, T, C, Brand>(alloc, tree, test, tests, Blank::new(1))
}

// The same, with a counter of its own for what is combined.
fn filter_joining<M: Shape, T: AugTest<M::Augment>, C: Ledger, D: Ledger>(
    alloc: Global,
    tree: &Tree<M>,
    test: &T,
    tests: &mut Steps<C>,
    blank: Blank,
) -> Result<Tree<M>, NoMemory>
    requires { IsFresh D.name D.parts blank }
    ensures entries { IfOk result (λ kept. kept.entries ≡ aug_filter M.Augment.base_of (T.admits test.now) tree.now.entries) }
    ensures cost { tests.new ≤ tests.old + filter_tests M.BLOCK tree.now.height (length (aug_filter M.Augment.base_of (T.admits test.now) tree.now.entries)) }
{
    let mut steps = Steps::<D>::start(blank);
    filter_part(alloc, Part { tree }, test, tests, &mut steps)
}

/// The entries of a leaf whose augmented values pass, in one walk.
fn filter_block<A: Augment, L: Leaf<A::Key, A::Val>, T: AugTest<A>, C: Ledger>(
    alloc: Global,
    leaf: &L,
    test: &T,
    tests: &mut Steps<C>,
) -> Result<Vec<(A::Key, A::Val)>, NoMemory>
    ensures kept { IfOk result (λ kept. kept.items ≡ aug_filter A.base_of (T.admits test.now) (L.entries leaf.now)) }
    ensures cost { tests.new ≤ tests.old + length (L.entries leaf.now) }
{
    let mut kept = Vec::new(alloc);
    let mut walk = leaf.walk();
    for _at in 0..leaf.len() {
        let Some(entry) = leaf.walk_next(&mut walk) else {
            unreachable!()
        };
        let passes = entry_passes::<A, T, C>(alloc, entry.key(), entry.val(), test, tests)?;
        if !passes {
            continue;
        }
        kept.push(entry.into_entry(alloc)?)?;
    }
    Ok(kept)
}

/// The map of the entries of a tree of one block that pass: the tree itself where all do.
fn filter_leaf<M: Shape, T: AugTest<M::Augment>, C: Ledger, D: Ledger>(
    alloc: Global,
    tree: &Tree<M>,
    leaf: &M::Leaf,
    test: &T,
    tests: &mut Steps<C>,
    steps: &mut Steps<D>,
) -> Result<Tree<M>, NoMemory>
    requires increasing { IsIncreasing M.Key.cmp (M.Leaf.entries leaf.now) }
    requires short { length (M.Leaf.entries leaf.now) ≤ 2 * M.BLOCK }
    requires same { tree.now.entries ≡ M.Leaf.entries leaf.now }
    ensures kept { IfOk result (λ kept. kept.entries ≡ aug_filter M.Augment.base_of (T.admits test.now) (M.Leaf.entries leaf.now)) }
    ensures cost { tests.new ≤ tests.old + length (M.Leaf.entries leaf.now) }
{
    let kept = filter_block::<M::Augment, M::Leaf, T, C>(alloc, leaf, test, tests)?;
    if kept.len() as u64 == leaf.len() {
        return tree.share(alloc);
    }
    Tree::from_owned(alloc, kept, steps)
}

/// What is kept of a tree's two sides, with its entry between them: the tree itself where nothing is left out.
fn join_kept<M: Shape, C: Ledger>(
    alloc: Global,
    tree: &Tree<M>,
    front: &Tree<M>,
    key: &M::Key,
    val: &M::Val,
    back: &Tree<M>,
    steps: &mut Steps<C>,
) -> Result<Tree<M>, NoMemory>
    requires below { AllBelow M.Key.cmp front.now.entries key.now }
    requires above { AllAbove M.Key.cmp back.now.entries key.now }
    requires whole { length front.now.entries + length back.now.entries + 1 ≡ length tree.now.entries → tree.now.entries ≡ front.now.entries ++ (key.now, val.now) ∷ back.now.entries }
    ensures { IfOk result (λ kept. kept.entries ≡ front.now.entries ++ (key.now, val.now) ∷ back.now.entries) }
{
    if front.size() + back.size() + 1 == tree.size() {
        return tree.share(alloc);
    }
    join_lent(alloc, front, key, val, back, steps)
}

/// The map of the entries whose augmented values pass.
fn filter_part<M: Shape, T: AugTest<M::Augment>, C: Ledger, D: Ledger>(
    alloc: Global,
    part: Part<'_, M>,
    test: &T,
    tests: &mut Steps<C>,
    steps: &mut Steps<D>,
) -> Result<Tree<M>, NoMemory>
    ensures kept { IfOk result (λ kept. kept.entries ≡ aug_filter M.Augment.base_of (T.admits test.now) part.entry.tree.now.entries) }
    ensures cost { tests.new ≤ tests.old + filter_tests M.BLOCK part.entry.tree.now.height (length (aug_filter M.Augment.base_of (T.admits test.now) part.entry.tree.now.entries)) }
{
    let tree = part.tree;
    if fails_whole(tree, test, tests) {
        return Ok(Tree::empty());
    }
    match tree.look() {
        Look::Empty => tree.share(alloc),
        Look::Block { leaf } => filter_leaf(alloc, tree, leaf, test, tests, steps),
        Look::Node {
            left,
            key,
            val,
            right,
        } => {
            let front = filter_part(alloc, Part { tree: left }, test, tests, steps)?;
            let back = filter_part(alloc, Part { tree: right }, test, tests, steps)?;
            let passes = entry_passes::<M::Augment, T, C>(alloc, key, val, test, tests)?;
            if !passes {
                return join2(alloc, &front, &back, steps);
            }
            join_kept(alloc, tree, &front, key, val, &back, steps)
        }
    }
}
