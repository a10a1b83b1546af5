//! Blocks that lend all their entries.
ghost use Rattle.std.specs.Prelude.{◌≡◌};

use crate::key::Key;
use crate::leaf::Leaf;
use crate::share::Share;

/// A block that keeps its entries as they are, each behind the one before it.
pub trait LeafRef<K: Key, V: Share>: Leaf<K, V> {
    /// Lends the entries in the order of their keys. O(1), and it takes no memory.
    fn as_slice(&self) -> &[(K, V)]
        ensures { result.now ≡ Self.entries self.now };
}
