//! The entries of blocks that are given up.
ghost use Rattle.std.specs.Prelude.{◌≡◌, IfOk};

use aug_monoid::{Key, Leaf, NoMemory, Pair64, Share};
use diff_leaf::{NumberKey, NumberLeaf, ValueCode};
use leaf_blocks::PlainLeaf;
use row_leaf::RowLeaf;
use std::alloc::Global;

/// A block that hands its entries out where it is given up.
pub trait IntoEntries<K: Key, V: Share>: Leaf<K, V> {
    /// Its entries in the order of their keys, in time linear in their number.
    fn into_entries(self, alloc: Global) -> Result<Vec<(K, V)>, NoMemory>
    where
        Self: Sized,
        ensures { IfOk result (λ v. v.items ≡ Self.entries self) };
}

/// Moves its entries, and takes no memory.
impl<K: Key, V: Share> IntoEntries<K, V> for PlainLeaf<K, V> {
    fn into_entries(self, _alloc: Global) -> Result<Vec<(K, V)>, NoMemory> {
        Ok(PlainLeaf::into_entries(self))
    }
}

/// Decodes its entries.
impl<K: NumberKey, V: ValueCode> IntoEntries<K, V> for NumberLeaf<K, V> {
    fn into_entries(self, alloc: Global) -> Result<Vec<(K, V)>, NoMemory> {
        copied_entries(alloc, &self)
    }
}

/// Decodes its entries.
impl IntoEntries<Pair64, u64> for RowLeaf {
    fn into_entries(self, alloc: Global) -> Result<Vec<(Pair64, u64)>, NoMemory> {
        copied_entries(alloc, &self)
    }
}

/// The entries of a leaf that stays, which are shared. O(n) for n entries.
pub(crate) fn copied_entries<K: Key, V: Share, L: Leaf<K, V>>(
    alloc: Global,
    leaf: &L,
) -> Result<Vec<(K, V)>, NoMemory>
    ensures { IfOk result (λ v. v.items ≡ L.entries leaf.now) }
{
    let mut entries = Vec::with_capacity(alloc, leaf.len() as usize)?;
    leaf.share_into(alloc, &mut entries)?;
    Ok(entries)
}
