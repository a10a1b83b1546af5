//! A tree of increasing entries as work that is divided.
ghost use Rattle.std.specs.Prelude.{◌≡◌, ◌<◌, ◌∷◌, ◌++◌, length, IfOk, IfSome};
ghost use Rattle.map_model.specs.Entries.{IsIncreasing};
ghost use Rattle.bulk_passes.specs.Answers.{IsAnswer, IsPutTogether, slice_entries};

use aug_monoid::{Key, NoMemory, Share, Steps, share_entry};
use fork_join::{Divide, Opened};
use std::alloc::Global;
use std::sync::ledger::Ledger;
use tree_make::{join_around, tree_of_slice};
use tree_shape::{Shape, Tree};

/// How many entries at most are made into a tree in one piece.
const PIECE: usize = 1024;

/// The map of entries whose keys rise: its answer for a slice of them is the tree of just these.
///
/// A long slice is cut at its middle entry, and the trees of its two halves are joined around that entry; a short one is made into a
/// tree in one piece. `divide` makes the halves side by side where the cut allows it, and `divide_alone` does all on one thread,
/// asking of values nothing about threads. For n entries O(n) work. It refuses only for want of memory.
#[derive(Drop)]
pub struct Planting;

impl<'a, M: Shape> Divide<&'a [(M::Key, M::Val)], Option<(M::Key, M::Val)>, Tree<M>> for Planting {
    ghost fits = { λ _ part. IsIncreasing M.Key.cmp part.now };

    ghost answers = { λ _. IsAnswer slice_entries };

    ghost divides = { λ _. IsPutTogether M.Key.cmp slice_entries };

    ghost extent = { λ _ part. length part.now };

    ghost bound = { λ _ _. 0 };

    ghost closing = { λ _ _. 0 };

    fn size(&self, part: &&'a [(M::Key, M::Val)]) -> u64 {
        part.len() as u64
    }

    fn open<C: Ledger>(
        &self,
        alloc: Global,
        part: &'a [(M::Key, M::Val)],
        _steps: &mut Steps<C>,
    ) -> Result<Opened<&'a [(M::Key, M::Val)], Option<(M::Key, M::Val)>, Tree<M>>, NoMemory> {
        if part.len() > PIECE {
            if let Some((front, middle, back)) = halves::<M::Key, M::Val>(part) {
                let entry = share_entry::<M::Key, M::Val>(alloc, &middle.0, &middle.1)?;
                return Ok(Opened::Split(front, Some(entry), back));
            }
        }
        let tree = tree_of_slice::<M>(alloc, part)?;
        Ok(Opened::Done(tree))
    }

    fn close<C: Ledger>(
        &self,
        alloc: Global,
        left: Tree<M>,
        middle: Option<(M::Key, M::Val)>,
        right: Tree<M>,
        _steps: &mut Steps<C>,
    ) -> Result<Tree<M>, NoMemory> {
        join_around::<M>(alloc, left, middle, right)
    }
}

/// The entries before the middle one, the middle one, and those after it.
fn halves<'a, K: Key, V>(entries: &'a [(K, V)]) -> Option<(&'a [(K, V)], &'a (K, V), &'a [(K, V)])>
    requires { IsIncreasing K.cmp entries.now }
    ensures parts { IfSome result (λ h. entries.now ≡ h.0.now ++ h.1.now ∷ h.2.now) }
    ensures front_increases { IfSome result (λ h. IsIncreasing K.cmp h.0.now) }
    ensures back_increases { IfSome result (λ h. IsIncreasing K.cmp h.2.now) }
    ensures front_shorter { IfSome result (λ h. length h.0.now < length entries.now) }
    ensures back_shorter { IfSome result (λ h. length h.2.now < length entries.now) }
{
    let (front, rest) = entries.split_at(entries.len() / 2);
    let (middle, back) = rest.split_first()?;
    Some((front, middle, back))
}
