//! The first place at which a sum passes a test.
ghost use Rattle.std.specs.Prelude.{◌≡◌, Bool, ◌+◌, ◌*◌, ◌≤◌, false, length, nat_le};
ghost use Rattle.pac_seq.specs.Passing.{IsFirstOf, StaysPassed, passes_at, passes_behind, sum_stays};

use crate::seq::SeqOver;
use aug_monoid::{Steps, Totals};
use seq_core::{BlockSize, Fold, Look, SeqTree, SumTop};
use std::alloc::Global;
use std::sync::ledger::Ledger;

/// A test of sums. A sum that passes does so with more items behind it too.
pub trait SumTest<F: Fold>: Drop {
    ghost admits: { Self → F.Sum → Bool };

    fn passes(&self, sum: &F::Sum) -> bool
        ensures { result ≡ admits self.now sum.now };

    ghost stays: { (test : Self) → StaysPassed F.Fits F.combined (admits test) };
}

/// The sums of at least so much: of items that are weights, the place that a number from 1 to their sum falls on.
#[derive(Drop)]
pub struct SumFrom {
    pub least: u64,
}

impl SumTest<SumTop> for SumFrom {
    ghost admits = { λ test totals. nat_le test.least totals.sum };

    ghost stays = { λ test. sum_stays test.least };

    fn passes(&self, totals: &Totals) -> bool {
        self.least <= totals.sum
    }
}

/// The first place of a slice at which the sum of what stands before it and of its items passes.
fn first_in_block<F: Fold, T: SumTest<F>, C: Ledger>(
    items: &[F::Item],
    before: F::Sum,
    test: &T,
    steps: &mut Steps<C>,
) -> Option<u64>
    requires { F.Fits before }
    ensures value { IsFirstOf (length items.now) (passes_behind F.image_of F.unit_of F.combined (T.admits test.now) before items.now) result }
    ensures cost { steps.new ≤ steps.old + length items.now }
{
    let mut sum = before;
    for at in 0..items.len() {
        sum = F::combine(&sum, &F::of(&items[at]), steps);
        if test.passes(&sum) {
            return Some(at as u64);
        }
    }
    None
}

/// The first place of a sequence at which the sum of what stands before it, which does not pass, and of its items passes: beside one
/// path it takes stored sums.
// It goes down in a loop, since a recursion would hand the place up again through each level, and take whole sums of which the test
// may ask a part alone.
fn first_in<F: Fold, S: BlockSize, T: SumTest<F>, C: Ledger>(
    alloc: Global,
    tree: &SeqTree<F, S>,
    before: F::Sum,
    test: &T,
    steps: &mut Steps<C>,
) -> Option<u64>
    requires fits { F.Fits before }
    requires not_yet { T.admits test.now before ≡ false }
    ensures value { IsFirstOf (length tree.now.items) (passes_behind F.image_of F.unit_of F.combined (T.admits test.now) before tree.now.items) result }
    ensures cost { steps.new ≤ steps.old + (2 * tree.now.height + 2 * S.SIZE) }
{
    let _size = tree.size(); // for the proof alone: a place fits its type
    let mut part = tree;
    let mut sum = before;
    let mut place = 0;
    'down: loop {
        match part.look() {
            Look::Empty => return None,
            Look::Block { items } => {
                return match first_in_block::<F, T, C>(items, sum, test, steps) {
                    Some(found) => Some(place + found),
                    None => None,
                };
            }
            Look::Node {
                before: places,
                left,
                item,
                right,
            } => {
                let front = F::combine(&sum, &left.sum(alloc), steps);
                if test.passes(&front) {
                    part = left;
                    continue;
                }
                sum = F::combine(&front, &F::of(item), steps);
                if test.passes(&sum) {
                    return Some(place + places);
                }
                part = right;
                place += places + 1;
            }
        }
    }
}

impl<F: Fold, S: BlockSize> SeqOver<F, S> {
    /// The least place, counted from 0, such that the sum of the items up to and including it passes: the item that a number drawn
    /// up to the sum of all weights falls on, the line that has a byte of a text. None exactly where the sum up to no place does. It
    /// takes stored sums beside one path and one block, and no memory.
    pub fn first_where<T: SumTest<F>, C: Ledger>(
        &self,
        alloc: Global,
        test: &T,
        steps: &mut Steps<C>,
    ) -> Option<u64>
        ensures value { IsFirstOf (length self.now.items) (passes_at F.image_of F.unit_of F.combined (T.admits test.now) self.now.items) result }
        ensures cost { steps.new ≤ steps.old + (2 * self.now.height + 2 * S.SIZE) }
    {
        let none = F::unit();
        if !test.passes(&none) {
            return first_in(alloc, &self.tree, none, test, steps);
        }
        if self.size() == 0 { None } else { Some(0) }
    }
}
