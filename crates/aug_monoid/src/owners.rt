//! Values with several owners, and lists of values.
ghost use Rattle.std.specs.Prelude.{◌≡◌, IfOk};
ghost use Rattle.std.specs.Arc.{arc_value};

use crate::cross::crosses;
use crate::key::Key;
use crate::no_memory::NoMemory;
use crate::share::Share;
use std::alloc::Global;
use std::cmp::Ordering;
use std::marker::{Model, Send, Sync};
use std::sync::Arc;

/// A value with several owners, seen as the value and ordered as it is. A share of it is one owner more.
#[derive(Drop)]
pub struct Shared<T: Drop> {
    owner: Arc<T>,
}

impl<T: Drop> Model for Shared<T> {
    ghost use Rattle.std.specs.Arc.{arc_value};

    ghost Value = { T };

    ghost view = { λ s. arc_value s.owner };
}

impl<T: Drop> Shared<T> {
    /// The first owner of a value, in O(1).
    pub fn new(alloc: Global, value: T) -> Result<Shared<T>, NoMemory>
        ensures { IfOk result (λ shared. shared ≡ value) }
    {
        let owner = Arc::new(alloc, value)?;
        Ok(Shared { owner })
    }

    /// An owner that is at hand, in O(1).
    pub fn from_arc(owner: Arc<T>) -> Shared<T>
        ensures { result ≡ arc_value owner }
    {
        Shared { owner }
    }

    /// Lends the value, in O(1).
    pub fn value(&self) -> &T
        ensures { result.now ≡ self.now }
    {
        &self.owner
    }

    /// The owner, in O(1).
    pub fn into_arc(self) -> Arc<T>
        ensures { arc_value result ≡ self }
    {
        let Shared { owner } = self;
        owner
    }
}

impl<T: Drop + PartialEq> PartialEq for Shared<T> {
    ghost eq = { T.eq };

    ghost laws = { T.PartialEq.laws };

    fn eq(&self, other: &Shared<T>) -> bool {
        self.value() == other.value()
    }
}

impl<T: Drop + Eq> Eq for Shared<T> {
    ghost laws = { T.Eq.laws };
}

impl<T: Drop + PartialOrd> PartialOrd for Shared<T> {
    ghost partial_cmp = { T.partial_cmp };

    ghost laws = { T.PartialOrd.laws };

    fn partial_cmp(&self, other: &Shared<T>) -> Option<Ordering> {
        self.value().partial_cmp(other.value())
    }
}

impl<T: Drop + Ord> Ord for Shared<T> {
    ghost cmp = { T.cmp };

    ghost total = { T.total };

    ghost matches_partial_cmp = { T.matches_partial_cmp };

    ghost matches_eq = { T.matches_eq };

    fn cmp(&self, other: &Shared<T>) -> Ordering {
        self.value().cmp(other.value())
    }
}

impl<T: Drop> Share for Shared<T> {
    // A count of owners that is full refuses one more.
    ghost never_refuses = { ⊥ };

    /// One owner more, in O(1) and in the memory of this one.
    fn share(&self, _alloc: Global) -> Result<Shared<T>, NoMemory> {
        let owner = Arc::try_clone(&self.owner)?;
        Ok(Shared { owner })
    }
}

impl<K: Key> Key for Shared<K> {
    ghost exact = { K.exact };
}

/// For the proof of it alone: owners are sent to and shared among threads where the value is.
pub fn shared_crosses<T: Drop + Send + Sync>(value: &Shared<T>) {
    crosses(value);
}

/// A list of values. A share of it has a share of each.
#[derive(Drop)]
pub struct Items<T: Drop> {
    items: Vec<T>,
}

impl<T: Drop> Model for Items<T> {
    ghost use Rattle.std.specs.Prelude.{List};

    ghost Value = { List T };

    ghost view = { λ i. i.items.items };
}

impl<T: Drop> Items<T> {
    /// The list of a `Vec`, in O(1).
    pub fn from_vec(items: Vec<T>) -> Items<T>
        ensures { result ≡ items.items }
    {
        Items { items }
    }

    /// Lends the values, in O(1).
    pub fn as_slice(&self) -> &[T]
        ensures { result.now ≡ self.now }
    {
        self.items.as_slice()
    }

    /// The `Vec` of the values, in O(1).
    pub fn into_vec(self) -> Vec<T>
        ensures { result.items ≡ self }
    {
        let Items { items } = self;
        items
    }
}

impl<T: Share> Share for Items<T> {
    ghost never_refuses = { ⊥ };

    /// A share of each value, in order.
    fn share(&self, alloc: Global) -> Result<Items<T>, NoMemory> {
        let items = shares_of(alloc, self.as_slice())?;
        Ok(Items { items })
    }
}

/// A share of each item, in order, with room for no more.
fn shares_of<T: Share>(alloc: Global, items: &[T]) -> Result<Vec<T>, NoMemory>
    ensures { IfOk result (λ shares. shares.items ≡ items.now) }
{
    let mut shares = Vec::with_capacity(alloc, items.len())?;
    for item in items {
        shares.push(item.share(alloc)?)?;
    }
    Ok(shares)
}
