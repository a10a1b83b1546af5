//! Entries set and removed in place.
ghost use Rattle.std.specs.Prelude.{◌≡◌, ◌+◌, ◌*◌, ◌≤◌, [], ◌∷◌, IfOk, OnErr};
ghost use Rattle.map_model.specs.Entries.{drop_key, lookup, set};
ghost use Rattle.map_model.specs.SetOperations.{union};

use crate::map::Map;
use aug_monoid::{NoMemory, Resolve, Steps};
use std::alloc::Global;
use std::sync::ledger::Ledger;
use tree_change::ShapeMut;

impl<M: ShapeMut> Map<M> {
    /// Sets a key to a value, in at most `64 * (height + 1) * (B + 2) + M::Leaf::FIND` steps. A node or block on the way that no other
    /// map has part in is changed where it stands, if the node stays balanced; from the first one on that has another owner or
    /// would not, and everywhere where the `Augment` may refuse, the change goes on by a copy, as `put` does. After a refusal
    /// the map is as it was.
    pub fn put_mut<C: Ledger>(
        &mut self,
        alloc: Global,
        key: M::Key,
        val: M::Val,
        steps: &mut Steps<C>,
    ) -> Result<(), NoMemory>
        ensures entries { IfOk result (λ _. self.new.entries ≡ set M.Key.cmp self.old.entries key val) }
        ensures kept { OnErr result (self.new ≡ self.old) }
        ensures cost { steps.new ≤ steps.old + (64 * (self.old.height + 1) * (M.BLOCK + 2) + M.Leaf.FIND) }
    {
        tree_change::put_mut(alloc, &mut self.tree, key, val, steps)
    }

    /// Sets a key to a value, where and as `put_mut` does, and answers the value that it had, in at most
    /// `65 * (height + 1) * (B + 2) + 2 * M::Leaf::FIND` steps. It goes down once, but for what is copied, where the value is looked
    /// for first. After a refusal the map is as it was.
    pub fn insert_mut<C: Ledger>(
        &mut self,
        alloc: Global,
        key: M::Key,
        val: M::Val,
        steps: &mut Steps<C>,
    ) -> Result<Option<M::Val>, NoMemory>
        ensures value { IfOk result (λ old. old ≡ lookup M.Key.cmp self.old.entries key) }
        ensures entries { IfOk result (λ _. self.new.entries ≡ set M.Key.cmp self.old.entries key val) }
        ensures kept { OnErr result (self.new ≡ self.old) }
        ensures cost { steps.new ≤ steps.old + (65 * (self.old.height + 1) * (M.BLOCK + 2) + 2 * M.Leaf.FIND) }
    {
        tree_change::insert_mut(alloc, &mut self.tree, key, val, steps)
    }

    /// Removes a key, which the map need not have, in place as `put_mut` sets one and in as many steps; the entry of a node always
    /// goes by a copy. After a refusal the map is as it was.
    pub fn del_mut<C: Ledger>(
        &mut self,
        alloc: Global,
        key: &M::Key,
        steps: &mut Steps<C>,
    ) -> Result<(), NoMemory>
        ensures entries { IfOk result (λ _. self.new.entries ≡ drop_key M.Key.cmp self.old.entries key.now) }
        ensures kept { OnErr result (self.new ≡ self.old) }
        ensures cost { steps.new ≤ steps.old + (64 * (self.old.height + 1) * (M.BLOCK + 2) + M.Leaf.FIND) }
    {
        tree_change::del_mut(alloc, &mut self.tree, key, steps)
    }

    /// Sets a key to what `how` makes of its value and the given one, or to the given one where the key is new: the union with
    /// the map of that one entry, in place as `put_mut`, in at most `65 * (height + 1) * (B + 2) + 2 * M::Leaf::FIND` steps. After a
    /// refusal the map is as it was.
    pub fn put_with<C: Ledger, H: Resolve<M::Val>>(
        &mut self,
        alloc: Global,
        key: M::Key,
        val: M::Val,
        how: &H,
        steps: &mut Steps<C>,
    ) -> Result<(), NoMemory>
        ensures entries { IfOk result (λ _. self.new.entries ≡ union M.Key.cmp (H.resolved how.now) self.old.entries ((key, val) ∷ [])) }
        ensures kept { OnErr result (self.new ≡ self.old) }
        ensures cost { steps.new ≤ steps.old + (65 * (self.old.height + 1) * (M.BLOCK + 2) + 2 * M.Leaf.FIND) }
    {
        tree_change::put_with(alloc, &mut self.tree, key, val, how, steps)
    }
}
