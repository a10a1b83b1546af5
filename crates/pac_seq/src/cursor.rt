//! Cursors over sequences.
ghost use Rattle.std.specs.Prelude.{◌≡◌, drop, slice_range};
ghost use Rattle.std.specs.Iterator.{YieldsFirstRef, item_count};

use crate::places::{Seat, seat_at};
use crate::seq::SeqOver;
use seq_core::{BlockSize, Fold, SeqTree, Width};
use std::marker::Model;

/// Items of a sequence in order, from both ends.
pub type Cursor<'a, F, const B: usize> = CursorOver<'a, F, Width<B>>;

/// Items of a sequence in order, from both ends: contracts see the list of those that are left between them. A cursor lends items
/// and takes no memory. From either end an item takes O(1), and the first one of a block O(log n) in n items. From the back it goes
/// by `next_back` or `rev`.
#[derive(Drop)]
pub struct CursorOver<'a, F: Fold, S: BlockSize> {
    pub(crate) tree: &'a SeqTree<F, S>,
    /// What is left of the block that the front is in.
    pub(crate) front: &'a [F::Item],
    /// Between the two blocks are the items at the places from `from` up to but without `to`.
    pub(crate) from: u64,
    pub(crate) to: u64,
    /// What is left of the block that the back is in.
    pub(crate) back: &'a [F::Item],
}

impl<'a, F: Fold, S: BlockSize> Model for CursorOver<'a, F, S> {
    ghost use Rattle.std.specs.Prelude.{List, ◌++◌, ◌≤◌, length, slice_range};

    ghost Value = { List F.Item };

    ghost view = { λ c. c.front.now ++ slice_range c.tree.now.items c.from c.to ++ c.back.now };

    ghost invariant = { λ c. c.to ≤ length c.tree.now.items };
}

impl<F: Fold, S: BlockSize> SeqOver<F, S> {
    /// Goes over the items in order. `rev` goes from the last item to the first. O(1), and then what a cursor takes.
    pub fn iter(&self) -> CursorOver<'_, F, S>
        ensures { result ≡ self.now.items }
    {
        self.range_iter(0, self.size())
    }

    /// Goes over the items at the places from `from` up to but without `to`, counted from 0; over none where `from` is not below
    /// `to`. Places past the last item have none. With `rev` it goes from the last of them to the first:
    /// `range_iter(0, place).rev()` goes backwards from a place. O(1), and then what a cursor takes.
    ///
    ///     let five: Seq<SumTop, 32> = SeqOver::from_items(alloc, &[1, 2, 3, 4, 5])?;
    ///     five.range_iter(1, 4).next()     // Some(&2)
    ///     five.range_iter(0, 3).rev().next()     // Some(&3)
    pub fn range_iter(&self, from: u64, to: u64) -> CursorOver<'_, F, S>
        ensures { result ≡ slice_range self.now.items from to }
    {
        CursorOver {
            tree: &self.tree,
            front: &[],
            from,
            to: to.min(self.size()),
            back: &[],
        }
    }

    /// Goes over the items in order, from a place on; over none where the place is at least the size. O(1), and then what a cursor
    /// takes.
    pub fn cursor(&self, place: u64) -> CursorOver<'_, F, S>
        ensures { result ≡ drop place self.now.items }
    {
        self.range_iter(place, self.size())
    }
}

impl<'a, F: Fold, S: BlockSize> Iterator for CursorOver<'a, F, S> {
    type Item = &'a F::Item;

    ghost next_gives = { YieldsFirstRef (λ c. c) };

    ghost remaining = { item_count (λ c. c) };

    fn next(&mut self) -> Option<&'a F::Item> {
        if let Some((first, rest)) = self.front.split_first() {
            self.front = rest;
            return Some(first);
        }
        if self.from >= self.to {
            let (first, rest) = self.back.split_first()?;
            self.back = rest;
            return Some(first);
        }
        match seat_at(self.tree, self.from) {
            Seat::Between { item } => {
                self.from += 1;
                Some(item)
            }
            Seat::Inside { items, .. } => {
                let count = (items.len() as u64).min(self.to - self.from);
                let (run, _) = items.split_at(count as usize);
                self.from += count;
                let (first, rest) = run.split_first()?;
                self.front = rest;
                Some(first)
            }
        }
    }
}
