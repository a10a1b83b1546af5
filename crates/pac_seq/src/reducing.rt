//! Sums of runs of items.
ghost use Rattle.std.specs.Prelude.{◌≡◌, ◌+◌, ◌*◌, ◌≤◌, length, take, drop};
ghost use Rattle.map_model.specs.Balance.{IsBlockSize};
ghost use Rattle.seq_core.specs.Sums.{sum_of};

use crate::seq::SeqOver;
use aug_monoid::Steps;
use seq_core::{BlockSize, Fold, Look, Part, sum_items};
use std::alloc::Global;
use std::sync::ledger::Ledger;

/// The sum of the first `count` items of a slice after its first `from` items.
fn reduce_block<F: Fold, C: Ledger>(
    items: &[F::Item],
    from: u64,
    count: u64,
    steps: &mut Steps<C>,
) -> F::Sum
    requires { from + count ≤ length items.now }
    ensures value { result ≡ sum_of F.image_of F.unit_of F.combined (take count (drop from items.now)) }
    ensures cost { steps.new ≤ steps.old + count }
{
    let (_, rest) = items.split_at(from as usize);
    let (run, _) = rest.split_at(count as usize);
    sum_items::<F, C>(run, steps)
}

/// The sum of the first `count` items of a sequence after its first `from` items, all of which it has: stored sums beside one
/// path where the run begins or ends with the sequence, else beside two.
fn reduce_part<F: Fold, S: BlockSize, C: Ledger>(
    alloc: Global,
    part: Part<'_, F, S>,
    from: u64,
    count: u64,
    steps: &mut Steps<C>,
) -> F::Sum
    requires { from + count ≤ length part.tree.now.items }
    ensures value { result ≡ sum_of F.image_of F.unit_of F.combined (take count (drop from part.entry.tree.now.items)) }
    ensures whole { count ≡ length part.entry.tree.now.items → steps.new ≤ steps.old }
    ensures front { from ≡ 0 → steps.new ≤ steps.old + (2 * part.entry.tree.now.height + 2 * S.SIZE) }
    ensures back { from + count ≡ length part.entry.tree.now.items → steps.new ≤ steps.old + (2 * part.entry.tree.now.height + 2 * S.SIZE) }
    ensures cost { steps.new ≤ steps.old + (4 * part.entry.tree.now.height + 4 * S.SIZE) }
{
    if count == part.tree.size() {
        return part.tree.sum(alloc);
    }
    match part.tree.look() {
        Look::Empty => unreachable!(),
        Look::Block { items } => reduce_block::<F, C>(items, from, count, steps),
        Look::Node {
            before,
            left,
            item,
            right,
        } => {
            if before < from {
                return reduce_part(alloc, Part { tree: right }, from - before - 1, count, steps);
            }
            if from + count <= before {
                return reduce_part(alloc, Part { tree: left }, from, count, steps);
            }
            let front = reduce_part(alloc, Part { tree: left }, from, before - from, steps);
            let front = F::combine(&front, &F::of(item), steps);
            let rest = from + count - before - 1;
            let back = reduce_part(alloc, Part { tree: right }, 0, rest, steps);
            F::combine(&front, &back, steps)
        }
    }
}

impl<F: Fold, S: BlockSize> SeqOver<F, S> {
    /// The sum of the first `count` items after the first `from` items, or of as many as there are, from the stored sums beside
    /// two paths and at most two blocks. It takes no memory. To get the sum with no counter at hand, take
    /// `slice(alloc, from, to)?.sum(alloc)`.
    pub fn reduce<C: Ledger>(
        &self,
        alloc: Global,
        from: u64,
        count: u64,
        steps: &mut Steps<C>,
    ) -> F::Sum
        ensures value { result ≡ sum_of F.image_of F.unit_of F.combined (take count (drop from self.now.items)) }
        ensures cost { steps.new ≤ steps.old + (8 * self.now.height + 16 * S.SIZE) }
    {
        let size = self.tree.size();
        let from = from.min(size);
        let count = count.min(size - from);
        reduce_part(alloc, Part { tree: &self.tree }, from, count, steps)
    }
}
