//! The reduction of a map as work that is divided.
ghost use Rattle.std.specs.Prelude.{◌≡◌, ◌+◌, ◌*◌, ◌∷◌, ◌++◌, length, IfOk};
ghost use Rattle.map_model.specs.Fold.{reduce};

use crate::block::{combine_around, reduce_leaf};
use aug_monoid::{NoMemory, Reduce, Steps};
use fork_join::{Divide, Opened};
use std::alloc::Global;
use std::sync::ledger::Ledger;
use tree_shape::{Look, Shape, Tree};

/// The reduction of a map: its answer for a tree is what `how` makes of each entry, combined in the order of the keys, and its unit
/// for no entries.
///
/// A node is opened at its root, and the answers for its two sides are combined around what `how` makes of the root's entry; a block
/// is reduced in one walk. `divide` reduces the two sides side by side where the cut allows it, and `divide_alone` does all on one
/// thread, asking of values and of `how` nothing about threads. Each combination is a step: for a map of n entries at most 2 * n. It
/// refuses only for want of memory.
#[derive(Drop)]
pub struct Reducing<'a, W> {
    pub how: &'a W,
}

impl<'a, M: Shape, W: Reduce<M::Key, M::Val>> Divide<&'a Tree<M>, (&'a M::Key, &'a M::Val), W::Out>
    for Reducing<'a, W> {
    ghost fits = { λ _ _. Unit {0} };

    ghost answers = { λ work part out. out ≡ reduce (W.image_of work.how.now) (W.unit_of work.how.now) (W.combined work.how.now) part.now.entries };

    ghost divides = { λ _ part front middle back. part.now.entries ≡ front.now.entries ++ (middle.0.now, middle.1.now) ∷ back.now.entries };

    ghost extent = { λ _ part. length part.now.entries };

    ghost bound = { λ _ part. 2 * length part.now.entries };

    ghost closing = { λ _ _. 2 };

    fn size(&self, part: &&'a Tree<M>) -> u64 {
        part.size()
    }

    fn open<C: Ledger>(
        &self,
        alloc: Global,
        part: &'a Tree<M>,
        steps: &mut Steps<C>,
    ) -> Result<Opened<&'a Tree<M>, (&'a M::Key, &'a M::Val), W::Out>, NoMemory> {
        match part.look() {
            Look::Node {
                left,
                key,
                val,
                right,
            } => Ok(Opened::Split(left, (key, val), right)),
            Look::Block { leaf } => {
                let all = reduce_leaf::<M::Key, M::Val, M::Leaf, W, C>(
                    alloc, leaf, self.how, steps,
                )?;
                Ok(Opened::Done(all))
            }
            Look::Empty => Ok(Opened::Done(self.how.unit())),
        }
    }

    fn close<C: Ledger>(
        &self,
        alloc: Global,
        left: W::Out,
        middle: (&'a M::Key, &'a M::Val),
        right: W::Out,
        steps: &mut Steps<C>,
    ) -> Result<W::Out, NoMemory> {
        combine_around::<M::Key, M::Val, W, C>(
            alloc, self.how, left, middle.0, middle.1, right, steps,
        )
    }
}
