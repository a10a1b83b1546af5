//! A list that grows at its end, of which every earlier list stays as it was.
//!
//! The items stand in pages of 32, the full pages in pages of 32, and these in one row: a wide tree of three levels, kept by path copying.
//!
//! A push copies one page at most of each level and shares the rest: O(1), but for every 1024th push, which copies the row. A
//! get looks into three levels, in O(1). A push refuses only for want of memory, and a log of 2^60 items counts as that.
//!
//! Tests: `serving_tests`. Wrong bodies: none here; `versions` proves its histories by these clauses.
#![tactic(auto)]

ghost use Rattle.std.specs.Prelude.{◌≡◌, ℕ, ◌<◌, ◌^◌, [], ◌∷◌, ◌++◌, length, slice_get, IfOk};
ghost use Rattle.std.specs.Option.{option_copied};

mod page;
mod rows;

use aug_monoid::{NoMemory, Share, crosses};
use page::Page;
use rows::Rows;
use std::alloc::Global;
use std::marker::{Model, Send, Sync};

/// How many items a full page has.
pub(crate) const PAGE: u64 = 32;

/// A log has fewer items than this.
pub(crate) const LIMIT: u64 = 1 << 60;

/// A persistent list, seen as its items in order.
pub struct SharedLog<T: Drop> {
    len: u64,
    full: Rows<Page<T>>,
    last: Page<T>,
}

impl<T: Drop> Model for SharedLog<T> {
    ghost use Rattle.std.specs.Prelude.{◌≡◌, ◌<◌, ◌^◌, List, ◌++◌, length};
    ghost use Rattle.shared_log.specs.Pages.{paged, AreFull};

    ghost Value = { List T };

    ghost view = { λ a. paged a.full ++ a.last };

    ghost invariant = { λ a. (a.len ≡ length (paged a.full ++ a.last)) × AreFull 32 a.full × (a.len < 2 ^ 60) };
}

impl<T: Drop> Drop for SharedLog<T> {
    fn drop(self) {
        let SharedLog { full, last, len: _ } = self;
        drop(full);
        drop(last);
    }
}

impl<T: Share> SharedLog<T> {
    /// The empty list. It takes no memory.
    pub fn new() -> SharedLog<T>
        ensures { result ≡ [] }
    {
        SharedLog {
            len: 0,
            full: Rows::new(),
            last: Page::empty(),
        }
    }

    /// The list with the item last; the old list stays.
    /// It shares at most 32 items and takes a constant number of blocks, and every 1024th push also copies the row of `len / 1024` owners.
    pub fn push(&self, alloc: Global, item: T) -> Result<SharedLog<T>, NoMemory>
        ensures value { IfOk result (λ log. log ≡ self.now ++ item ∷ []) }
    {
        if self.len + 1 >= LIMIT {
            return Err(NoMemory);
        }
        if self.last.len() == PAGE {
            return Ok(SharedLog {
                len: self.len + 1,
                full: self.full.push(alloc, self.last.share(alloc)?)?,
                last: Page::empty().push(alloc, item)?,
            });
        }
        Ok(SharedLog {
            len: self.len + 1,
            full: self.full.share(alloc)?,
            last: self.last.push(alloc, item)?,
        })
    }

    /// Lends the item at a place from 0, in constant time; `None` exactly where the place is at least the length.
    pub fn get(&self, at: u64) -> Option<&T>
        ensures value { option_copied result ≡ slice_get self.now at }
    {
        if at >= self.len {
            return None;
        }
        let below = self.len - self.last.len();
        if at >= below {
            return Some(self.last.get(at - below));
        }
        Some(self.full.get(at / PAGE).get(at % PAGE))
    }

    /// How many items the list has.
    pub fn len(&self) -> u64
        ensures value { result ≡ length self.now }
        ensures few { result < 2 ^ 60 }
    {
        self.len
    }
}

impl<T: Share> Share for SharedLog<T> {
    ghost never_refuses = { ⊥ };

    /// The same list, in O(1) and in the memory of this one.
    fn share(&self, alloc: Global) -> Result<SharedLog<T>, NoMemory> {
        Ok(SharedLog {
            len: self.len,
            full: self.full.share(alloc)?,
            last: self.last.share(alloc)?,
        })
    }
}

/// A log is sent to and shared among threads. It does nothing, and is there for the proof of that alone.
pub(crate) fn log_crosses<T: Share + Send + Sync>(log: &SharedLog<T>) {
    crosses(log);
}
