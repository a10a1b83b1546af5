//! What an item gives.
ghost use Rattle.std.specs.Prelude.{◌≡◌, ◌++◌, List, OnOk};

use aug_monoid::NoMemory;
use std::alloc::Global;

/// The keys that an item gives to a set, in any order, some perhaps more than once.
pub trait Gives<T, K>: Drop {
    /// The keys of an item, without values.
    ghost given: { Self → T → List (K × Unit {0}) };

    /// Appends the keys of an item.
    fn push_given(&self, alloc: Global, item: &T, into: &mut Vec<(K, ())>) -> Result<(), NoMemory>
        ensures { OnOk result (into.new.items ≡ into.old.items ++ given self.now item.now) };
}
