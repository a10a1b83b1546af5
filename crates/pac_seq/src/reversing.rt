//! Sequences turned round.
ghost use Rattle.std.specs.Prelude.{◌≡◌, ◌*◌, ◌≤◌, IfOk, length, reverse};
ghost use Rattle.map_model.specs.Balance.{IsBlockSize};
ghost use Rattle.pac_seq.specs.Reversed.{IsReversed, IsAround};

use crate::seq::SeqOver;
use aug_monoid::{NoMemory, Share, Steps};
use fork_join::{Cut, Divide, Gate, On, Opened, divide, divide_uncounted};
use seq_core::{BlockSize, Fold, Look, SeqTree, SyncFold, copy_items, join};
use std::alloc::Global;
use std::marker::{Send, Sync};
use std::sync::ledger::Ledger;
use std::thread::Threads;

/// Sequences are turned round.
#[derive(Drop)]
struct Reversing;

impl<'a, F: Fold, S: BlockSize> Divide<&'a SeqTree<F, S>, F::Item, SeqTree<F, S>> for Reversing {
    ghost fits = { λ _ _. Unit {0} };

    ghost answers = { λ _. IsReversed };

    ghost divides = { λ _. IsAround };

    ghost extent = { λ _ part. length part.now.items };

    ghost bound = { λ _ _. 0 };

    ghost closing = { λ _ _. 0 };

    fn size(&self, part: &&'a SeqTree<F, S>) -> u64 {
        part.size()
    }

    fn open<C: Ledger>(
        &self,
        alloc: Global,
        part: &'a SeqTree<F, S>,
        _steps: &mut Steps<C>,
    ) -> Result<Opened<&'a SeqTree<F, S>, F::Item, SeqTree<F, S>>, NoMemory> {
        match part.look() {
            Look::Empty => Ok(Opened::Done(part.share(alloc)?)),
            Look::Block { items } => Ok(Opened::Done(reversed_block(alloc, items)?)),
            Look::Node {
                left,
                item,
                right,
                ..
            } => {
                let middle = item.share(alloc)?;
                Ok(Opened::Split(left, middle, right))
            }
        }
    }

    fn close<C: Ledger>(
        &self,
        alloc: Global,
        left: SeqTree<F, S>,
        middle: F::Item,
        right: SeqTree<F, S>,
        _steps: &mut Steps<C>,
    ) -> Result<SeqTree<F, S>, NoMemory> {
        join(alloc, &right, middle, &left)
    }
}

/// The items of a block, turned round.
fn reversed_block<F: Fold, S: BlockSize>(
    alloc: Global,
    items: &[F::Item],
) -> Result<SeqTree<F, S>, NoMemory>
    requires block_size { IsBlockSize S.SIZE }
    requires short { length items.now ≤ 2 * S.SIZE }
    ensures { IfOk result (λ tree. tree.items ≡ reverse items.now) }
{
    let mut copy = copy_items::<F>(alloc, items)?;
    copy.reverse();
    SeqTree::from_few(alloc, copy)
}

impl<F: Fold, S: BlockSize> SeqOver<F, S> {
    /// The items from the last to the first, in time linear in their number.
    pub fn reverse<R: Threads + Sync, G: Gate>(
        &self,
        rt: &R,
        alloc: Global,
        gate: &G,
        cut: Cut,
    ) -> Result<SeqOver<F, S>, NoMemory>
    where
        F: SyncFold,
        S: Send + Sync,
        ensures { IfOk result (λ seq. seq.items ≡ reverse self.now.items) }
    {
        let tree = divide(On { rt, gate, cut }, alloc, &Reversing, &self.tree)?;
        Ok(SeqOver { tree })
    }

    /// `reverse` on one thread, which asks of items and sums nothing about threads. O(n) for n items.
    pub fn reverse_alone(&self, alloc: Global) -> Result<SeqOver<F, S>, NoMemory>
        ensures { IfOk result (λ seq. seq.items ≡ reverse self.now.items) }
    {
        let tree = divide_uncounted(alloc, &Reversing, &self.tree)?;
        Ok(SeqOver { tree })
    }
}
