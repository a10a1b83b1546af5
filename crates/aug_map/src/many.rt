//! Many keys at once.
ghost use Rattle.std.specs.Prelude.{◌≡◌, IfOk, is_some, map};
ghost use Rattle.map_model.specs.Entries.{lookup};

use crate::map::Map;
use aug_monoid::NoMemory;
use std::alloc::Global;
use tree_shape::Shape;

impl<M: Shape> Map<M> {
    /// The values at keys, in the order in which the keys are given, each if it is there. Keys may come in any order and more than
    /// once. Eight keys or more are sorted with their places and go down together, divided at each node, so that each node is waited
    /// for once: O(k * log(k) + k * log(n / k + 1)) for k keys and a map of n entries. Fewer, and those of a map of one block, are
    /// looked up one after another. `NoMemory` for want of memory, and where the share of a key or a value refuses.
    pub fn get_many(&self, alloc: Global, keys: &[M::Key]) -> Result<Vec<Option<M::Val>>, NoMemory>
        ensures { IfOk result (λ vals. vals.items ≡ map (λ k. lookup M.Key.cmp self.now.entries k) keys.now) }
    {
        tree_many::get_many(alloc, &self.tree, keys)
    }

    /// Whether each of the keys is there, in the order in which the keys are given and in the time of `get_many`. It shares no value.
    pub fn contains_many(&self, alloc: Global, keys: &[M::Key]) -> Result<Vec<bool>, NoMemory>
        ensures { IfOk result (λ found. found.items ≡ map (λ k. is_some (lookup M.Key.cmp self.now.entries k)) keys.now) }
    {
        tree_many::contains_many(alloc, &self.tree, keys)
    }
}
