//! Items that come and go at a place or at an end, runs of items, and the items as a list.
ghost use Rattle.std.specs.Prelude.{◌≡◌, ◌+◌, ◌-◌, [], ◌∷◌, ◌++◌, drop, length, slice_get, take, IfOk, IfSome, OnErr};
ghost use Rattle.std.specs.Option.{option_map};
ghost use Rattle.pac_seq.specs.Ends.{last_of};

use crate::seq::SeqOver;
use aug_monoid::{NoMemory, Share};
use seq_core::{BlockSize, Fold, SureFold, join};
use std::alloc::Global;

impl<F: Fold, S: BlockSize> SeqOver<F, S> {
    /// The same items with another before the one at a place, or behind them all where there are no more. O(log n + B).
    ///
    ///     let text = text.insert(alloc, 0, b'>')?;
    pub fn insert(&self, alloc: Global, at: u64, item: F::Item) -> Result<SeqOver<F, S>, NoMemory>
        ensures { IfOk result (λ seq. seq.items ≡ take at self.now.items ++ item ∷ drop at self.now.items) }
    {
        let front = self.take(alloc, at)?;
        let back = self.skip(alloc, at)?;
        let tree = join(alloc, &front.tree, item, &back.tree)?;
        Ok(SeqOver { tree })
    }

    /// The items but the one at a place; all of them where the place is at least the size. O(log n + B).
    pub fn remove(&self, alloc: Global, at: u64) -> Result<SeqOver<F, S>, NoMemory>
        ensures { IfOk result (λ seq. seq.items ≡ take at self.now.items ++ drop (at + 1) self.now.items) }
    {
        let _size = self.size(); // for the proof alone: there are fewer places than numbers
        let front = self.take(alloc, at)?;
        let back = self.skip(alloc, at.saturating_add(1))?;
        front.append(alloc, &back)
    }

    /// The items from the place `from` on and before the place `to`; none where `from` is at least `to` or the size. O(log n + B).
    pub fn slice(&self, alloc: Global, from: u64, to: u64) -> Result<SeqOver<F, S>, NoMemory>
        ensures { IfOk result (λ seq. seq.items ≡ take (to - from) (drop from self.now.items)) }
    {
        self.skip(alloc, from)?.take(alloc, to.saturating_sub(from))
    }

    /// The same items with another before them. O(log n + B).
    pub fn push_front(&self, alloc: Global, item: F::Item) -> Result<SeqOver<F, S>, NoMemory>
        ensures { IfOk result (λ seq. seq.items ≡ item ∷ self.now.items) }
    {
        self.insert(alloc, 0, item)
    }

    /// The same items with another behind them. O(log n + B).
    pub fn push_back(&self, alloc: Global, item: F::Item) -> Result<SeqOver<F, S>, NoMemory>
        ensures { IfOk result (λ seq. seq.items ≡ self.now.items ++ item ∷ []) }
    {
        self.insert(alloc, self.size(), item)
    }

    /// Puts an item behind the last. What this sequence alone owns is changed in place, and the rest of one path and one block is
    /// copied, so that shares of the sequence stay as they were. After a refusal it is as it was. O(log n), amortized, where it owns
    /// all of its blocks and nodes alone; else O(log n + B).
    ///
    ///     text.push_mut(alloc, b'!')?;
    pub fn push_mut(&mut self, alloc: Global, item: F::Item) -> Result<(), NoMemory>
        ensures items { IfOk result (λ _. self.new.items ≡ self.old.items ++ item ∷ []) }
        ensures kept { OnErr result (self.new ≡ self.old) }
    {
        seq_core::push_mut(alloc, &mut self.tree, item)
    }

    /// The first item, and the sequence of the others; none exactly where there are no items. O(log n + B).
    pub fn split_first(&self, alloc: Global) -> Result<Option<(F::Item, SeqOver<F, S>)>, NoMemory>
        ensures item { IfOk result (λ parts. option_map (λ p. p.0) parts ≡ slice_get self.now.items 0) }
        ensures rest { IfOk result (λ parts. IfSome parts (λ p. p.1.items ≡ drop 1 self.now.items)) }
    {
        match self.get(0) {
            Some(item) => Ok(Some((item.share(alloc)?, self.skip(alloc, 1)?))),
            None => Ok(None),
        }
    }

    /// The last item, and the sequence of the others; none exactly where there are no items. O(log n + B).
    pub fn split_last(&self, alloc: Global) -> Result<Option<(F::Item, SeqOver<F, S>)>, NoMemory>
        ensures item { IfOk result (λ parts. option_map (λ p. p.0) parts ≡ last_of self.now.items) }
        ensures rest { IfOk result (λ parts. IfSome parts (λ p. p.1.items ≡ take (length self.now.items - 1) self.now.items)) }
    {
        let before = self.size().saturating_sub(1);
        match self.get(before) {
            Some(item) => Ok(Some((item.share(alloc)?, self.take(alloc, before)?))),
            None => Ok(None),
        }
    }

    /// The items as a list. O(n).
    pub fn to_vec(&self, alloc: Global) -> Result<Vec<F::Item>, NoMemory>
        ensures { IfOk result (λ list. list.items ≡ self.now.items) }
    {
        let mut list = Vec::new(alloc);
        for item in self.iter() {
            list.push(item.share(alloc)?)?;
        }
        Ok(list)
    }
}

impl<F: SureFold, S: BlockSize> SeqOver<F, S> {
    /// The first item; none exactly where there are no items. It takes no memory. O(log n).
    pub fn first(&self, alloc: Global) -> Option<F::Item>
        ensures { result ≡ slice_get self.now.items 0 }
    {
        self.at(alloc, 0)
    }

    /// The last item; none exactly where there are no items. It takes no memory. O(log n).
    pub fn last(&self, alloc: Global) -> Option<F::Item>
        ensures { result ≡ last_of self.now.items }
    {
        self.at(alloc, self.size().saturating_sub(1))
    }
}
