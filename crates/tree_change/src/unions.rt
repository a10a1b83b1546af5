//! A key set to what its old value and a new one make.
ghost use Rattle.std.specs.Prelude.{◌≡◌, ◌+◌, ◌*◌, ◌≤◌, [], ◌∷◌, IfOk, OnErr};
ghost use Rattle.std.specs.Option.{option_map_or};
ghost use Rattle.map_model.specs.SetOperations.{union};

use crate::puts::put_mut;
use crate::shape_mut::ShapeMut;
use aug_monoid::{NoMemory, Resolve, Steps};
use std::alloc::Global;
use std::sync::ledger::Ledger;
use tree_entry::get;
use tree_shape::Tree;

/// The value of a key that was found with an old value, or not at all.
fn value_with<V: Drop, H: Resolve<V>>(
    alloc: Global,
    found: Option<V>,
    val: V,
    how: &H,
) -> Result<V, NoMemory>
    ensures { IfOk result (λ new. new ≡ option_map_or (λ old. H.resolved how.now old val) found val) }
{
    match found {
        Some(old) => how.resolve(alloc, &old, &val),
        None => Ok(val),
    }
}

/// Unites the map with one entry, in O(log n + M::BLOCK) time: an absent key gets the value, and a key that is there what `how`
/// makes of its old value and this one. It changes the map where `put_mut` does. After a refusal the map is as it was. It takes at
/// most `65 * (height + 1) * (M::BLOCK + 2) + 2 * M::Leaf::FIND` steps.
pub fn put_with<M: ShapeMut, C: Ledger, H: Resolve<M::Val>>(
    alloc: Global,
    tree: &mut Tree<M>,
    key: M::Key,
    val: M::Val,
    how: &H,
    steps: &mut Steps<C>,
) -> Result<(), NoMemory>
    ensures entries { IfOk result (λ _. tree.new.entries ≡ union M.Key.cmp (H.resolved how.now) tree.old.entries ((key, val) ∷ [])) }
    ensures kept { OnErr result (tree.new ≡ tree.old) }
    ensures cost { steps.new ≤ steps.old + (65 * (tree.old.height + 1) * (M.BLOCK + 2) + 2 * M.Leaf.FIND) }
{
    let found = get(alloc, tree, &key, steps)?;
    let new = value_with(alloc, found, val, how)?;
    put_mut(alloc, tree, key, new, steps)
}
