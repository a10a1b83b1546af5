//! Single items by their places.
ghost use Rattle.std.specs.Prelude.{◌≡◌, ◌<◌, ◌≤◌, ◌↔◌, Some, drop, take, length, slice_get, slice_set, IfOk, IsNone, OnErr};
ghost use Rattle.std.specs.Option.{option_copied};
ghost use Rattle.pac_seq.specs.Seats.{IsBack, IsFront, before_in, items_at};

use crate::seq::SeqOver;
use aug_monoid::NoMemory;
use seq_core::{BlockSize, Fold, Look, Part, SeqTree, SureFold, set_at, share_item};
use std::alloc::Global;

/// Where an item stands: in a block, first of `items` and behind those before it, or between the sides of a node.
#[derive(Drop)]
pub(crate) enum Seat<'a, F: Fold> {
    Inside {
        before: &'a [F::Item],
        items: &'a [F::Item],
    },
    Between {
        item: &'a F::Item,
    },
}

/// The seat of the item at a place.
// It goes down in a loop, since a recursion would hand the seat up again through each level. That the place is on the left side
// is asked first, so that the program branches, and the processor need not wait for a node before it begins with the next.
pub(crate) fn seat_at<'a, F: Fold, S: BlockSize>(tree: &'a SeqTree<F, S>, place: u64) -> Seat<'a, F>
    requires { place < length tree.now.items }
    ensures ahead { IsFront (items_at result) (drop place tree.now.items) }
    ensures behind { IsBack (before_in result) (take place tree.now.items) }
{
    let mut part = tree;
    let mut place_in = place;
    loop {
        match part.look() {
            Look::Empty => unreachable!(),
            Look::Block { items } => {
                let (before, items) = items.split_at(place_in as usize);
                return Seat::Inside { before, items };
            }
            Look::Node {
                before,
                left,
                item,
                right,
            } => {
                if place_in < before {
                    part = left;
                } else if place_in == before {
                    return Seat::Between { item };
                } else {
                    part = right;
                    place_in -= before + 1;
                }
            }
        }
    }
}

/// The item at a place, which is lent.
fn item_at<'a, F: Fold, S: BlockSize>(tree: &'a SeqTree<F, S>, place: u64) -> &'a F::Item
    requires { place < length tree.now.items }
    ensures { slice_get tree.now.items place ≡ Some result.now }
{
    match seat_at(tree, place) {
        Seat::Inside { items, .. } => &items[0],
        Seat::Between { item } => item,
    }
}

impl<F: Fold, S: BlockSize> SeqOver<F, S> {
    /// Lends the item at a place, counted from 0; none exactly where the place is at least the size. It takes no memory. O(log n) in
    /// n items.
    pub fn get(&self, place: u64) -> Option<&F::Item>
        ensures value { option_copied result ≡ slice_get self.now.items place }
        ensures none { IsNone result ↔ (length self.now.items ≤ place) }
    {
        if place >= self.tree.size() {
            return None;
        }
        Some(item_at(&self.tree, place))
    }

    /// The same items with another at a place, which copies one path and one block. O(log n + B) in n items.
    pub fn set(&self, alloc: Global, place: u64, item: F::Item) -> Result<SeqOver<F, S>, NoMemory>
        requires { place < length self.now.items }
        ensures { IfOk result (λ seq. seq.items ≡ slice_set self.now.items place item) }
    {
        let tree = set_at(alloc, Part { tree: &self.tree }, place, item)?;
        Ok(SeqOver { tree })
    }

    /// Sets the item at a place. What this sequence alone owns is changed in place, and the rest of one path and one block is
    /// copied, so that shares of the sequence stay as they were. After a refusal it is as it was. O(log n + B) in n items.
    ///
    ///     text.set_mut(alloc, 0, b'H')?;
    pub fn set_mut(&mut self, alloc: Global, place: u64, item: F::Item) -> Result<(), NoMemory>
        requires { place < length self.old.items }
        ensures items { IfOk result (λ _. self.new.items ≡ slice_set self.old.items place item) }
        ensures kept { OnErr result (self.new ≡ self.old) }
    {
        seq_core::set_mut(alloc, &mut self.tree, place, item)
    }
}

impl<F: SureFold, S: BlockSize> SeqOver<F, S> {
    /// The item at a place, counted from 0, of which the caller is another owner; none exactly where the place is at least the size.
    /// It takes no memory. O(log n) in n items.
    pub fn at(&self, alloc: Global, place: u64) -> Option<F::Item>
        ensures value { result ≡ slice_get self.now.items place }
        ensures none { IsNone result ↔ (length self.now.items ≤ place) }
    {
        if place < self.tree.size() {
            Some(share_item::<F>(alloc, item_at(&self.tree, place)))
        } else {
            None
        }
    }
}
