//! The value that a put replaces.
ghost use Rattle.std.specs.Prelude.{◌≡◌, ◌+◌, ◌≤◌, IfOk, IsTrue};
ghost use Rattle.std.specs.List.{slice_get};
ghost use Rattle.std.specs.Option.{option_map};
ghost use Rattle.map_model.specs.Entries.{lookup};
ghost use Rattle.tree_change.specs.Looks.{look_cost};

use aug_monoid::{Key, Leaf, NoMemory, Seek, Share, Steps};
use std::alloc::Global;
use std::sync::ledger::Ledger;
use tree_entry::get;
use tree_shape::{Shape, Tree};

/// Where a put hands out the value that it replaces. It hangs below the whole way down, so that no level hands the value up.
#[derive(Drop)]
pub(crate) struct Replaced<V> {
    /// Whether the caller wants the value. A copy makes a share of it only then.
    pub(crate) is_wanted: bool,
    /// The value, once there is one.
    pub(crate) val: Option<V>,
}

/// Hands out a share of the value at a place of a leaf, if the key was there and the value is wanted.
pub(crate) fn share_at_place<K: Key, V: Share, L: Leaf<K, V>>(
    alloc: Global,
    leaf: &L,
    place: Seek,
    replaced: &mut Replaced<V>,
) -> Result<(), NoMemory>
    ensures hit { IfOk result (λ _. IsTrue replaced.old.is_wanted → IsTrue place.hit → replaced.new.val ≡ option_map (λ e. e.1) (slice_get (L.entries leaf.now) place.at)) }
    ensures missed { IfOk result (λ _. (¬ (IsTrue place.hit)) → replaced.new.val ≡ replaced.old.val) }
{
    if replaced.is_wanted && place.hit {
        replaced.val = match leaf.get_at(place.at) {
            Some(entry) => Some(entry.into_val(alloc)?),
            None => None,
        };
    }
    Ok(())
}

/// Hands out a share of the value at a key of a map, if it is wanted.
pub(crate) fn share_in_tree<M: Shape, C: Ledger>(
    alloc: Global,
    tree: &Tree<M>,
    key: &M::Key,
    replaced: &mut Replaced<M::Val>,
    steps: &mut Steps<C>,
) -> Result<(), NoMemory>
    ensures value { IfOk result (λ _. IsTrue replaced.old.is_wanted → replaced.new.val ≡ lookup M.Key.cmp tree.now.entries key.now) }
    ensures cost { steps.new ≤ steps.old + look_cost replaced.old.is_wanted tree.now.height M.Leaf.FIND }
{
    if replaced.is_wanted {
        replaced.val = get(alloc, tree, key, steps)?;
    }
    Ok(())
}
