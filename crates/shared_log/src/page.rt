//! Pages: items in one block of memory that never change. Several logs may own one.
ghost use Rattle.std.specs.Prelude.{◌≡◌, ℕ, ◌<◌, [], ◌∷◌, ◌++◌, length, slice_get, IfOk, Some};
ghost use Rattle.shared_log.specs.Pages.{page_items};

use aug_monoid::{NoMemory, Share};
use std::alloc::Global;
use std::marker::Model;
use std::sync::Arc;

/// A page, seen as its items in order. The empty one has no block.
pub(crate) struct Page<T: Drop> {
    items: Option<Arc<Vec<T>>>,
}

impl<T: Drop> Model for Page<T> {
    ghost use Rattle.std.specs.Prelude.{List};
    ghost use Rattle.shared_log.specs.Pages.{page_items};

    ghost Value = { List T };

    ghost view = { λ a. page_items a.items };
}

impl<T: Drop> Drop for Page<T> {
    fn drop(self) {
        let Page { items } = self;
        drop(items);
    }
}

impl<T: Share> Page<T> {
    pub(crate) fn empty() -> Page<T>
        ensures { result ≡ [] }
    {
        Page { items: None }
    }

    pub(crate) fn len(&self) -> u64
        ensures { result ≡ length self.now }
    {
        match &self.items {
            None => 0,
            Some(items) => items.len() as u64,
        }
    }

    pub(crate) fn get(&self, at: u64) -> &T
        requires { at < length self.now }
        ensures { slice_get self.now at ≡ Some result.now }
    {
        match &self.items {
            None => unreachable!(),
            Some(items) => &items.as_slice()[at as usize],
        }
    }

    /// A page with copies of the items, and then this one.
    pub(crate) fn push(&self, alloc: Global, item: T) -> Result<Page<T>, NoMemory>
        ensures { IfOk result (λ page. page ≡ self.now ++ item ∷ []) }
    {
        let mut items = match &self.items {
            None => Vec::new(alloc),
            Some(items) => copies_of(alloc, items.as_slice())?,
        };
        items.push(item)?;
        Ok(Page {
            items: Some(Arc::new(alloc, items)?),
        })
    }
}

/// Other owners of the items, in a list with room for one more.
fn copies_of<T: Share>(alloc: Global, items: &[T]) -> Result<Vec<T>, NoMemory>
    ensures { IfOk result (λ copies. copies.items ≡ items.now) }
{
    let mut copies = Vec::with_capacity(alloc, items.len().saturating_add(1))?;
    for item in items {
        copies.push(item.share(alloc)?)?;
    }
    Ok(copies)
}

impl<T: Share> Share for Page<T> {
    ghost never_refuses = { ⊥ };

    fn share(&self, _alloc: Global) -> Result<Page<T>, NoMemory> {
        match &self.items {
            None => Ok(Page { items: None }),
            Some(items) => Ok(Page {
                items: Some(Arc::try_clone(items)?),
            }),
        }
    }
}
