//! Entries as a leaf lends them.
ghost use Rattle.std.specs.Prelude.{◌≡◌, IfOk, IsOk};
ghost use Rattle.std.specs.Option.{option_map};
ghost use Rattle.aug_monoid.specs.Lending.{entry_of};

use crate::no_memory::NoMemory;
use crate::share::Share;
use std::alloc::Global;

/// An entry of a leaf, lent where it stands, or decoded from the leaf's bytes.
pub enum Lent<'a, K: Drop, V: Drop> {
    Kept(&'a (K, V)),
    Decoded(K, V),
}

// By hand, so that a caller that drops one has one path for it and not two.
impl<'a, K: Drop, V: Drop> Drop for Lent<'a, K, V> {
    fn drop(self) {
        match self {
            Lent::Kept(_) => {}
            Lent::Decoded(key, val) => {
                drop(key);
                drop(val);
            }
        }
    }
}

impl<'a, K: Share, V: Share> Lent<'a, K, V> {
    pub fn key(&self) -> &K
        ensures { result.now ≡ (entry_of self.now).0 }
    {
        match self {
            Lent::Kept(entry) => &entry.0,
            Lent::Decoded(key, _) => key,
        }
    }

    pub fn val(&self) -> &V
        ensures { result.now ≡ (entry_of self.now).1 }
    {
        match self {
            Lent::Kept(entry) => &entry.1,
            Lent::Decoded(_, val) => val,
        }
    }

    /// The entry with an owner of its own: one that stands in the leaf is shared, one that was decoded is handed out.
    pub fn into_entry(self, alloc: Global) -> Result<(K, V), NoMemory>
        ensures value { IfOk result (λ entry. entry ≡ entry_of self.entry) }
        ensures succeeds { K.never_refuses → V.never_refuses → IsOk result }
    {
        match self {
            Lent::Kept(entry) => entry.share(alloc),
            Lent::Decoded(key, val) => Ok((key, val)),
        }
    }

    /// The entry's value with an owner of its own.
    pub fn into_val(self, alloc: Global) -> Result<V, NoMemory>
        ensures value { IfOk result (λ val. val ≡ (entry_of self.entry).1) }
        ensures succeeds { V.never_refuses → IsOk result }
    {
        match self {
            Lent::Kept(entry) => entry.1.share(alloc),
            Lent::Decoded(_, val) => Ok(val),
        }
    }
}

/// The entry, where there is one, with an owner of its own.
pub fn owned<K: Share, V: Share>(
    alloc: Global,
    entry: Option<Lent<'_, K, V>>,
) -> Result<Option<(K, V)>, NoMemory>
    ensures value { IfOk result (λ found. found ≡ option_map entry_of entry.entry) }
    ensures succeeds { K.never_refuses → V.never_refuses → IsOk result }
{
    match entry {
        Some(entry) => Ok(Some(entry.into_entry(alloc)?)),
        None => Ok(None),
    }
}
