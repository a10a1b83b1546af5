//! A filter as work that is divided.
ghost use Rattle.std.specs.Prelude.{◌≡◌, ◌+◌, ◌≤◌, ◌++◌, [], ◌∷◌, Some, None, length, IfOk, if◌then◌else◌};
ghost use Rattle.std.specs.List.{filter as filtered};
ghost use Rattle.map_model.specs.Entries.{IsIncreasing};
ghost use Rattle.bulk_passes.specs.Answers.{IsAnswer, IsPutTogether, filtered_entries};

use aug_monoid::{Key, Leaf, NoMemory, Share, Steps, Test, share_entry};
use fork_join::{Divide, Opened};
use std::alloc::Global;
use std::sync::ledger::Ledger;
use tree_join::Part;
use tree_make::{join_around, tree_of};
use tree_shape::{Look, Shape, Tree};

/// A part with at most the entries of this many least blocks is worked on as a slice.
pub const SLICED_BLOCKS: u64 = 32;

/// The filter of a map: its answer for a tree is the tree of the entries that hold.
///
/// A greater tree is opened at its root, and what is left of its two sides is joined around the root's entry, if that holds; a tree
/// of at most `SLICED_BLOCKS` least blocks is gone through in one pass. `divide` filters the two sides side by side where the cut
/// allows it, and `divide_alone` does all on one thread, asking of values and of the test nothing about threads. Each test is a step:
/// for a map of n entries at most n. What the trees of the answer and their joins combine is not counted. It is O(n) work, and refuses
/// only for want of memory.
#[derive(Drop)]
pub struct Filtering<'a, T> {
    pub test: &'a T,
}

impl<'a, M: Shape, T: Test<M::Key, M::Val>> Divide<&'a Tree<M>, Option<(M::Key, M::Val)>, Tree<M>>
    for Filtering<'a, T> {
    ghost fits = { λ _ _. Unit {0} };

    ghost answers = { λ work. IsAnswer (filtered_entries (T.passes work.test.now)) };

    ghost divides = { λ work. IsPutTogether M.Key.cmp (filtered_entries (T.passes work.test.now)) };

    ghost extent = { λ _ part. length part.now.entries };

    ghost bound = { λ _ part. length part.now.entries };

    ghost closing = { λ _ _. 0 };

    fn size(&self, part: &&'a Tree<M>) -> u64 {
        part.size()
    }

    fn open<C: Ledger>(
        &self,
        alloc: Global,
        part: &'a Tree<M>,
        steps: &mut Steps<C>,
    ) -> Result<Opened<&'a Tree<M>, Option<(M::Key, M::Val)>, Tree<M>>, NoMemory> {
        match part.look() {
            Look::Node {
                left,
                key,
                val,
                right,
            } if part.size() > SLICED_BLOCKS * part.block_size() => {
                let middle = passing_entry::<M::Key, M::Val, T, C>(
                    alloc, self.test, key, val, steps,
                )?;
                Ok(Opened::Split(left, middle, right))
            }
            _ => {
                let kept = filter_small::<M, T, C>(alloc, part, self.test, steps)?;
                Ok(Opened::Done(kept))
            }
        }
    }

    fn close<C: Ledger>(
        &self,
        alloc: Global,
        left: Tree<M>,
        middle: Option<(M::Key, M::Val)>,
        right: Tree<M>,
        _steps: &mut Steps<C>,
    ) -> Result<Tree<M>, NoMemory> {
        join_around::<M>(alloc, left, middle, right)
    }
}

/// Whether an entry holds, in one step. A filter tests here alone.
#[inline(always)]
fn tested<K, V, T: Test<K, V>, C: Ledger>(test: &T, key: &K, val: &V, steps: &mut Steps<C>) -> bool
    ensures value { result ≡ T.passes test.now key.now val.now }
    ensures one_step { steps.new ≡ steps.old + 1 }
{
    steps.tick();
    test.holds(key, val)
}

/// The entry, where it holds.
fn passing_entry<K: Share, V: Share, T: Test<K, V>, C: Ledger>(
    alloc: Global,
    test: &T,
    key: &K,
    val: &V,
    steps: &mut Steps<C>,
) -> Result<Option<(K, V)>, NoMemory>
    ensures value { IfOk result (λ middle. middle ≡ if T.passes test.now key.now val.now then Some (key.now, val.now) else None) }
    ensures cost { steps.new ≡ steps.old + 1 }
{
    if tested::<K, V, T, C>(test, key, val, steps) {
        Ok(Some((key.share(alloc)?, val.share(alloc)?)))
    } else {
        Ok(None)
    }
}

/// Appends another owner of an entry, where it is wanted. Where shares never refuse, as those of numbers, one is appended in any case and
/// taken off again where it isn't wanted, so that no jump hangs on an answer which no processor foresees.
#[inline(always)]
fn push_shared_if<K: Share, V: Share>(
    alloc: Global,
    key: &K,
    val: &V,
    wanted: bool,
    out: &mut Vec<(K, V)>,
) -> Result<(), NoMemory>
    ensures { IfOk result (λ _. out.new.items ≡ out.old.items ++ (if wanted then (key.now, val.now) ∷ [] else [])) }
{
    if wanted || K::is_total() && V::is_total() {
        out.push(share_entry(alloc, key, val)?)?;
        if !wanted {
            out.pop();
        }
    }
    Ok(())
}

/// Appends another owner of an entry, where it holds. A filter calls it for each entry, so it is no call of its own.
#[inline(always)]
fn push_passing<K: Share, V: Share, T: Test<K, V>, C: Ledger>(
    alloc: Global,
    key: &K,
    val: &V,
    test: &T,
    out: &mut Vec<(K, V)>,
    steps: &mut Steps<C>,
) -> Result<(), NoMemory>
    ensures value { IfOk result (λ _. out.new.items ≡ out.old.items ++ filtered (λ e. T.passes test.now e.0 e.1) ((key.now, val.now) ∷ [])) }
    ensures cost { steps.new ≡ steps.old + 1 }
{
    let holds = tested::<K, V, T, C>(test, key, val, steps);
    push_shared_if(alloc, key, val, holds, out)
}

/// Appends the entries of a leaf that hold, in one walk over it.
fn filter_leaf<K: Key, V: Share, L: Leaf<K, V>, T: Test<K, V>, C: Ledger>(
    alloc: Global,
    leaf: &L,
    test: &T,
    out: &mut Vec<(K, V)>,
    steps: &mut Steps<C>,
) -> Result<(), NoMemory>
    ensures value { IfOk result (λ _. out.new.items ≡ out.old.items ++ filtered (λ e. T.passes test.now e.0 e.1) (L.entries leaf.now)) }
    ensures cost { steps.new ≤ steps.old + length (L.entries leaf.now) }
{
    let mut walk = leaf.walk();
    for _at in 0..leaf.len() {
        let Some(entry) = leaf.walk_next(&mut walk) else {
            unreachable!()
        };
        push_passing::<K, V, T, C>(alloc, entry.key(), entry.val(), test, out, steps)?;
    }
    Ok(())
}

/// Appends the entries of a tree that hold, block by block.
fn filter_into<M: Shape, T: Test<M::Key, M::Val>, C: Ledger>(
    alloc: Global,
    part: Part<'_, M>,
    test: &T,
    out: &mut Vec<(M::Key, M::Val)>,
    steps: &mut Steps<C>,
) -> Result<(), NoMemory>
    ensures value { IfOk result (λ _. out.new.items ≡ out.old.items ++ filtered (λ e. T.passes test.now e.0 e.1) part.entry.tree.now.entries) }
    ensures cost { steps.new ≤ steps.old + length part.entry.tree.now.entries }
{
    match part.tree.look() {
        Look::Empty => Ok(()),
        Look::Block { leaf } => filter_leaf::<M::Key, M::Val, M::Leaf, T, C>(
            alloc, leaf, test, out, steps,
        ),
        Look::Node {
            left,
            key,
            val,
            right,
        } => {
            filter_into(alloc, Part { tree: left }, test, out, steps)?;
            push_passing::<M::Key, M::Val, T, C>(alloc, key, val, test, out, steps)?;
            filter_into(alloc, Part { tree: right }, test, out, steps)
        }
    }
}

/// A small tree, filtered in one pass.
fn filter_small<M: Shape, T: Test<M::Key, M::Val>, C: Ledger>(
    alloc: Global,
    tree: &Tree<M>,
    test: &T,
    steps: &mut Steps<C>,
) -> Result<Tree<M>, NoMemory>
    ensures value { IfOk result (λ kept. kept.entries ≡ filtered (λ e. T.passes test.now e.0 e.1) tree.now.entries) }
    ensures cost { steps.new ≤ steps.old + length tree.now.entries }
{
    let size = tree.size();
    let mut kept = Vec::with_capacity(alloc, size as usize)?;
    filter_into(alloc, Part { tree }, test, &mut kept, steps)?;
    tree_of(alloc, kept)
}
