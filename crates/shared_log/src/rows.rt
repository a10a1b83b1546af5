//! Rows of full pages, and a last page. A push copies the last page, or starts one.
ghost use Rattle.std.specs.Prelude.{◌≡◌, ℕ, ◌<◌, [], ◌∷◌, ◌++◌, length, slice_get, IfOk, Some};

use crate::page::Page;
use crate::{LIMIT, PAGE};
use aug_monoid::{NoMemory, Share};
use std::alloc::Global;
use std::marker::Model;

/// A list in pages, seen as its items in order.
pub(crate) struct Rows<T: Drop> {
    len: u64,
    full: Page<Page<T>>,
    last: Page<T>,
}

impl<T: Drop> Model for Rows<T> {
    ghost use Rattle.std.specs.Prelude.{◌≡◌, List, ◌++◌, length};
    ghost use Rattle.shared_log.specs.Pages.{paged, AreFull};

    ghost Value = { List T };

    ghost view = { λ a. paged a.full ++ a.last };

    ghost invariant = { λ a. (a.len ≡ length (paged a.full ++ a.last)) × AreFull 32 a.full };
}

impl<T: Drop> Drop for Rows<T> {
    fn drop(self) {
        let Rows { full, last, len: _ } = self;
        drop(full);
        drop(last);
    }
}

impl<T: Share> Rows<T> {
    pub(crate) fn new() -> Rows<T>
        ensures { result ≡ [] }
    {
        Rows {
            len: 0,
            full: Page::empty(),
            last: Page::empty(),
        }
    }

    /// The items, and then this one.
    pub(crate) fn push(&self, alloc: Global, item: T) -> Result<Rows<T>, NoMemory>
        ensures { IfOk result (λ log. log ≡ self.now ++ item ∷ []) }
    {
        if self.len >= LIMIT {
            return Err(NoMemory);
        }
        if self.last.len() == PAGE {
            return Ok(Rows {
                len: self.len + 1,
                full: self.full.push(alloc, self.last.share(alloc)?)?,
                last: Page::empty().push(alloc, item)?,
            });
        }
        Ok(Rows {
            len: self.len + 1,
            full: self.full.share(alloc)?,
            last: self.last.push(alloc, item)?,
        })
    }

    pub(crate) fn get(&self, at: u64) -> &T
        requires { at < length self.now }
        ensures { slice_get self.now at ≡ Some result.now }
    {
        let below = self.len - self.last.len();
        if at >= below {
            return self.last.get(at - below);
        }
        self.full.get(at / PAGE).get(at % PAGE)
    }

    pub(crate) fn len(&self) -> u64
        ensures { result ≡ length self.now }
    {
        self.len
    }
}

impl<T: Share> Share for Rows<T> {
    ghost never_refuses = { ⊥ };

    fn share(&self, alloc: Global) -> Result<Rows<T>, NoMemory> {
        Ok(Rows {
            len: self.len,
            full: self.full.share(alloc)?,
            last: self.last.share(alloc)?,
        })
    }
}
