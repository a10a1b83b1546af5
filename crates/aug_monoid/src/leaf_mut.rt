//! Blocks of entries that are changed in place.
ghost use Rattle.std.specs.Prelude.{◌≡◌, ◌+◌, ◌<◌, ◌≤◌, ◌∷◌, ◌++◌, length, take, drop, IfOk, OnErr};
ghost use Rattle.map_model.specs.Entries.{IsIncreasing};

use crate::key::Key;
use crate::leaf::Leaf;
use crate::no_memory::NoMemory;
use crate::share::Share;
use std::alloc::Global;

/// A block of entries that is changed in place while it has one owner. Each change takes time linear in the leaf's size, and
/// after a refusal the leaf is as it was.
pub trait LeafMut<K: Key, V: Share>: Leaf<K, V> {
    /// The entry at a place becomes another one.
    fn set_at(&mut self, alloc: Global, at: u64, key: K, val: V) -> Result<(), NoMemory>
        requires inside { at < length (Self.entries self.old) }
        requires increasing { IsIncreasing K.cmp (take at (Self.entries self.old) ++ (key, val) ∷ drop (at + 1) (Self.entries self.old)) }
        requires short { length (Self.entries self.old) ≤ 256 }
        ensures set { IfOk result (λ _. Self.entries self.new ≡ take at (Self.entries self.old) ++ (key, val) ∷ drop (at + 1) (Self.entries self.old)) }
        ensures kept { OnErr result (Self.entries self.new ≡ Self.entries self.old) };

    /// An entry comes to stand at a place, before those that stood there.
    fn insert_at(&mut self, alloc: Global, at: u64, key: K, val: V) -> Result<(), NoMemory>
        requires inside { at ≤ length (Self.entries self.old) }
        requires increasing { IsIncreasing K.cmp (take at (Self.entries self.old) ++ (key, val) ∷ drop at (Self.entries self.old)) }
        requires short { length (Self.entries self.old) ≤ 256 }
        ensures inserted { IfOk result (λ _. Self.entries self.new ≡ take at (Self.entries self.old) ++ (key, val) ∷ drop at (Self.entries self.old)) }
        ensures kept { OnErr result (Self.entries self.new ≡ Self.entries self.old) };

    /// The entry at a place goes.
    fn remove_at(&mut self, alloc: Global, at: u64) -> Result<(), NoMemory>
        requires inside { at < length (Self.entries self.old) }
        ensures removed { IfOk result (λ _. Self.entries self.new ≡ take at (Self.entries self.old) ++ drop (at + 1) (Self.entries self.old)) }
        ensures kept { OnErr result (Self.entries self.new ≡ Self.entries self.old) };
}
