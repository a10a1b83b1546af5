//! Cursors from the back.
ghost use Rattle.std.specs.Iterator.{YieldsLastRef};

use crate::cursor::CursorOver;
use crate::places::{Seat, seat_at};
use seq_core::{BlockSize, Fold};

impl<'a, F: Fold, S: BlockSize> DoubleEndedIterator for CursorOver<'a, F, S> {
    ghost next_back_gives = { YieldsLastRef (λ c. c) };

    fn next_back(&mut self) -> Option<&'a F::Item> {
        if let Some((last, rest)) = self.back.split_last() {
            self.back = rest;
            return Some(last);
        }
        if self.from >= self.to {
            let (last, rest) = self.front.split_last()?;
            self.front = rest;
            return Some(last);
        }
        let place = self.to - 1;
        match seat_at(self.tree, place) {
            Seat::Between { item } => {
                self.to = place;
                Some(item)
            }
            Seat::Inside { before, items } => {
                let count = (before.len() as u64).min(place - self.from);
                let (_, run) = before.split_at(before.len() - count as usize);
                self.to = place - count;
                self.back = run;
                Some(&items[0])
            }
        }
    }
}
