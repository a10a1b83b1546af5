//! The first entry whose augmented value passes a test.
ghost use Rattle.std.specs.Prelude.{◌≡◌, ◌+◌, ◌≤◌, length, IfOk, IsNone, IsOk};
ghost use Rattle.map_model.specs.Fold.{aug_filter};
ghost use Rattle.map_model.specs.Parts.{select};
ghost use Rattle.aug_monoid.specs.Fresh.{IsFresh};
ghost use Rattle.tree_filter.specs.Tests.{search_tests};

use crate::passing::{entry_passes, fails_whole};
use aug_monoid::{AugTest, Augment, Leaf, NoMemory, Steps, share_entry};
use std::alloc::Global;
use std::marker::Brand;
use std::sync::ledger::{Blank, Ledger};
use tree_join::Part;
use tree_shape::{Look, Shape, Tree};

/// `first_where_counted` with a counter that is thrown away.
pub fn first_where<M: Shape, T: AugTest<M::Augment>>(
    alloc: Global,
    tree: &Tree<M>,
    test: &T,
) -> Result<Option<(M::Key, M::Val)>, NoMemory>
    ensures value { IfOk result (λ found. found ≡ select (aug_filter M.Augment.base_of (T.admits test.now) tree.now.entries) 0) }
    ensures succeeds { M.Augment.never_refuses → M.Key.never_refuses → M.Val.never_refuses → IsOk result }
{
    first_with_counter::<M, T, Brand>(alloc, tree, test, Blank::new(1))
}

// The same, with a counter of its own.
fn first_with_counter<M: Shape, T: AugTest<M::Augment>, C: Ledger>(
    alloc: Global,
    tree: &Tree<M>,
    test: &T,
    blank: Blank,
) -> Result<Option<(M::Key, M::Val)>, NoMemory>
    requires { IsFresh C.name C.parts blank }
    ensures value { IfOk result (λ found. found ≡ select (aug_filter M.Augment.base_of (T.admits test.now) tree.now.entries) 0) }
    ensures succeeds { M.Augment.never_refuses → M.Key.never_refuses → M.Val.never_refuses → IsOk result }
{
    let mut tests = Steps::<C>::start(blank);
    first_where_counted(alloc, tree, test, &mut tests)
}

/// The first entry whose augmented value passes; none exactly where no entry's does. It passes over each tree whose stored fold
/// fails the test, so it takes one path, in O(height + M::BLOCK) time. Each test is a step: at most `search_tests`. It takes no
/// memory where augmented values and the shares of keys and values take none.
pub fn first_where_counted<M: Shape, T: AugTest<M::Augment>, C: Ledger>(
    alloc: Global,
    tree: &Tree<M>,
    test: &T,
    tests: &mut Steps<C>,
) -> Result<Option<(M::Key, M::Val)>, NoMemory>
    ensures value { IfOk result (λ found. found ≡ select (aug_filter M.Augment.base_of (T.admits test.now) tree.now.entries) 0) }
    ensures succeeds { M.Augment.never_refuses → M.Key.never_refuses → M.Val.never_refuses → IsOk result }
    ensures cost { tests.new ≤ tests.old + search_tests M.BLOCK tree.now.height }
{
    first_in(alloc, Part { tree }, test, tests)
}

fn first_in<M: Shape, T: AugTest<M::Augment>, C: Ledger>(
    alloc: Global,
    part: Part<'_, M>,
    test: &T,
    tests: &mut Steps<C>,
) -> Result<Option<(M::Key, M::Val)>, NoMemory>
    ensures value { IfOk result (λ found. found ≡ select (aug_filter M.Augment.base_of (T.admits test.now) part.entry.tree.now.entries) 0) }
    ensures succeeds { M.Augment.never_refuses → M.Key.never_refuses → M.Val.never_refuses → IsOk result }
    ensures missed { IfOk result (λ found. IsNone found → tests.new ≤ tests.old + 1) }
    ensures cost { tests.new ≤ tests.old + search_tests M.BLOCK part.entry.tree.now.height }
{
    if fails_whole(part.tree, test, tests) {
        return Ok(None);
    }
    match part.tree.look() {
        Look::Empty => Ok(None),
        Look::Block { leaf } => first_in_block::<M::Augment, M::Leaf, T, C>(
            alloc, leaf, test, tests,
        ),
        Look::Node {
            left,
            key,
            val,
            right,
        } => {
            match first_in(alloc, Part { tree: left }, test, tests)? {
                Some(entry) => Ok(Some(entry)),
                None => {
                    if entry_passes::<M::Augment, T, C>(alloc, key, val, test, tests)? {
                        return Ok(Some(share_entry(alloc, key, val)?));
                    }
                    first_in(alloc, Part { tree: right }, test, tests)
                }
            }
        }
    }
}

/// The first entry of a leaf whose augmented value passes, in one walk that ends there.
fn first_in_block<A: Augment, L: Leaf<A::Key, A::Val>, T: AugTest<A>, C: Ledger>(
    alloc: Global,
    leaf: &L,
    test: &T,
    tests: &mut Steps<C>,
) -> Result<Option<(A::Key, A::Val)>, NoMemory>
    ensures value { IfOk result (λ found. found ≡ select (aug_filter A.base_of (T.admits test.now) (L.entries leaf.now)) 0) }
    ensures succeeds { A.never_refuses → A.Key.never_refuses → A.Val.never_refuses → IsOk result }
    ensures cost { tests.new ≤ tests.old + length (L.entries leaf.now) }
{
    let mut walk = leaf.walk();
    for _at in 0..leaf.len() {
        let Some(entry) = leaf.walk_next(&mut walk) else {
            unreachable!()
        };
        if entry_passes::<A, T, C>(alloc, entry.key(), entry.val(), test, tests)? {
            return Ok(Some(entry.into_entry(alloc)?));
        }
    }
    Ok(None)
}
