//! Which entries pass a test of augmented values.
ghost use Rattle.std.specs.Prelude.{◌≡◌, ◌+◌, ◌<◌, ◌≤◌, [], true, false, length, IfOk, IsOk};
ghost use Rattle.map_model.specs.Fold.{aug_filter};

use aug_monoid::{AugTest, Augment, NoMemory, Steps};
use std::alloc::Global;
use std::sync::ledger::Ledger;
use tree_shape::{Shape, Tree};

/// Whether an augmented value passes, in one step. Filters and searches test here alone.
#[inline(always)]
fn tested<A: Augment, T: AugTest<A>, C: Ledger>(
    test: &T,
    aug: &A::Aug,
    tests: &mut Steps<C>,
) -> bool
    ensures value { result ≡ T.admits test.now aug.now }
    ensures one_step { tests.new ≡ tests.old + 1 }
{
    tests.tick();
    test.passes(aug)
}

/// Whether no entry of a tree passes, as its stored fold shows, in one step.
pub(crate) fn fails_whole<M: Shape, T: AugTest<M::Augment>, C: Ledger>(
    tree: &Tree<M>,
    test: &T,
    tests: &mut Steps<C>,
) -> bool
    ensures none { result ≡ true → aug_filter M.Augment.base_of (T.admits test.now) tree.now.entries ≡ [] }
    ensures some { result ≡ false → 0 < length (aug_filter M.Augment.base_of (T.admits test.now) tree.now.entries) }
    ensures cost { tests.new ≤ tests.old + 1 }
{
    match tree.aug() {
        Some(fold) => !tested::<M::Augment, T, C>(test, fold, tests),
        None => true,
    }
}

/// Whether an entry's augmented value passes, in one step.
pub(crate) fn entry_passes<A: Augment, T: AugTest<A>, C: Ledger>(
    alloc: Global,
    key: &A::Key,
    val: &A::Val,
    test: &T,
    tests: &mut Steps<C>,
) -> Result<bool, NoMemory>
    ensures value { IfOk result (λ passes. passes ≡ T.admits test.now (A.base_of key.now val.now)) }
    ensures succeeds { A.never_refuses → IsOk result }
    ensures cost { tests.new ≤ tests.old + 1 }
{
    let base = A::base(alloc, key, val)?;
    Ok(tested::<A, T, C>(test, &base, tests))
}
