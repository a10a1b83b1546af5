//! The value at a key, and maps with one key changed.
ghost use Rattle.std.specs.Prelude.{◌≡◌, ◌+◌, ◌*◌, ◌≤◌, [], ◌∷◌, is_some, IfOk, IsOk};
ghost use Rattle.std.specs.Option.{option_copied};
ghost use Rattle.map_model.specs.Entries.{IsIncreasing, drop_key, lookup, set};

use crate::map::Map;
use aug_monoid::{NoMemory, Steps};
use std::alloc::Global;
use std::sync::ledger::Ledger;
use tree_make::{tree_of, tree_of_slice};
use tree_shape::{Shape, ShapeRef};

impl<M: Shape> Map<M> {
    /// The map of one entry. O(1).
    pub fn single(alloc: Global, key: M::Key, val: M::Val) -> Result<Map<M>, NoMemory>
        ensures { IfOk result (λ map. map.entries ≡ (key, val) ∷ []) }
    {
        Map::from_tree(tree_entry::single(alloc, key, val))
    }

    /// The map of entries whose keys rise, which are shared. O(n) for n entries.
    pub fn of_slice(alloc: Global, entries: &[(M::Key, M::Val)]) -> Result<Map<M>, NoMemory>
        requires { IsIncreasing M.Key.cmp entries.now }
        ensures { IfOk result (λ map. map.entries ≡ entries.now) }
    {
        Map::from_tree(tree_of_slice(alloc, entries))
    }

    /// The map of entries whose keys rise, which are handed over. O(n) for n entries.
    pub fn of_vec(alloc: Global, entries: Vec<(M::Key, M::Val)>) -> Result<Map<M>, NoMemory>
        requires { IsIncreasing M.Key.cmp entries.items }
        ensures { IfOk result (λ map. map.entries ≡ entries.items) }
    {
        Map::from_tree(tree_of(alloc, entries))
    }

    /// The value at a key, if it is there, in at most `height + M::Leaf::FIND` steps. It takes no memory where the shares of keys and
    /// values take none.
    pub fn get<C: Ledger>(
        &self,
        alloc: Global,
        key: &M::Key,
        steps: &mut Steps<C>,
    ) -> Result<Option<M::Val>, NoMemory>
        ensures value { IfOk result (λ val. val ≡ lookup M.Key.cmp self.now.entries key.now) }
        ensures succeeds { M.Key.never_refuses → M.Val.never_refuses → IsOk result }
        ensures cost { steps.new ≤ steps.old + (self.now.height + M.Leaf.FIND) }
    {
        tree_entry::get(alloc, &self.tree, key, steps)
    }

    /// Whether a key is there, in at most `height + M::Leaf::FIND` steps. It takes no memory, and shares no value.
    pub fn contains_key<C: Ledger>(&self, key: &M::Key, steps: &mut Steps<C>) -> bool
        ensures value { result ≡ is_some (lookup M.Key.cmp self.now.entries key.now) }
        ensures cost { steps.new ≤ steps.old + (self.now.height + M.Leaf.FIND) }
    {
        tree_entry::contains_key(&self.tree, key, steps)
    }

    /// The map with a key set to a value, in at most `64 * (height + 1) * (B + 2) + M::Leaf::FIND` steps.
    pub fn put<C: Ledger>(
        &self,
        alloc: Global,
        key: M::Key,
        val: M::Val,
        steps: &mut Steps<C>,
    ) -> Result<Map<M>, NoMemory>
        ensures entries { IfOk result (λ map. map.entries ≡ set M.Key.cmp self.now.entries key val) }
        ensures cost { steps.new ≤ steps.old + (64 * (self.now.height + 1) * (M.BLOCK + 2) + M.Leaf.FIND) }
    {
        Map::from_tree(tree_entry::put(alloc, &self.tree, key, val, steps))
    }

    /// The map without a key, which it need not have, in at most `64 * (height + 1) * (B + 2) + M::Leaf::FIND` steps.
    pub fn del<C: Ledger>(
        &self,
        alloc: Global,
        key: &M::Key,
        steps: &mut Steps<C>,
    ) -> Result<Map<M>, NoMemory>
        ensures entries { IfOk result (λ map. map.entries ≡ drop_key M.Key.cmp self.now.entries key.now) }
        ensures cost { steps.new ≤ steps.old + (64 * (self.now.height + 1) * (M.BLOCK + 2) + M.Leaf.FIND) }
    {
        Map::from_tree(tree_entry::del(alloc, &self.tree, key, steps))
    }
}

impl<M: ShapeRef> Map<M> {
    /// Lends the value at a key, if it is there, in at most `height + M::Leaf::FIND` steps. It takes no memory.
    pub fn get_ref<C: Ledger>(&self, key: &M::Key, steps: &mut Steps<C>) -> Option<&M::Val>
        ensures value { option_copied result ≡ lookup M.Key.cmp self.now.entries key.now }
        ensures cost { steps.new ≤ steps.old + (self.now.height + M.Leaf.FIND) }
    {
        tree_entry::get_ref(&self.tree, key, steps)
    }
}
